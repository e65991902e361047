//! How a comparison is written.

/// How a comparison is written.
#[derive(Clone, Copy, PartialEq, Eq, Debug, Drop)]
pub enum Form {
    /// A table for eyes.
    Table,
    /// Records.
    Csv,
    /// An SVG picture of a task of a die: by policy, which share of its jobs is how late.
    Picture { die: u32, task: u32 },
}
