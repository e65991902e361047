//! How the tasks of a plan ask.

/// How the tasks of a plan ask: all of it within what the plan allows.
#[derive(Clone, Copy, PartialEq, Eq, Debug, Drop)]
pub struct Manner {
    /// What draws the operations and their pages.
    pub seed: u32,
    /// Whether the writing tasks first write each page of the die once, in order, and nothing is trimmed.
    pub fills: bool,
    /// Whether the first job of each task comes in a slot below its period that is drawn; else in slot 0.
    pub phases: bool,
    /// A job comes up to `jitter` slots later than its period allows; how many is drawn.
    pub jitter: u32,
    /// Of a hundred jobs `load` come; which ones is drawn. 100 and more are all.
    pub load: u32,
}

impl Manner {
    /// All that a plan allows, all tasks at once.
    pub const fn all(seed: u32) -> Manner {
        Manner {
            seed,
            fills: false,
            phases: false,
            jitter: 0,
            load: 100,
        }
    }
}
