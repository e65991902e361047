//! Whether a job is over, and how it ended.

/// Whether a job or a collection is over, and how it ended.
#[derive(Clone, Copy, PartialEq, Eq, Debug)]
pub enum Stage {
    /// It is neither done nor waived.
    Pending,
    /// It is done: `completion` is 1 + its last slot, and `given` counts the pages that a collection gave its task. A
    /// job gives none.
    Done { completion: u32, given: u32 },
    /// It is a collection that was waived, and gave its task `given` pages.
    Waived { given: u32 },
}
