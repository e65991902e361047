//! Whether a script keeps the plans of its dies.

use flashplan_breaches::Breach;

/// What breaks the plan of a die.
#[derive(Clone, Copy, PartialEq, Eq, Debug, Drop)]
pub struct Broken {
    pub die: u32,
    pub breach: Breach,
}

/// Whether a script keeps the plans of its dies.
#[derive(Clone, Copy, PartialEq, Eq, Debug, Drop)]
pub enum Verdict {
    Kept,
    /// The first die whose plan it breaks, and how.
    Broken(Broken),
}
