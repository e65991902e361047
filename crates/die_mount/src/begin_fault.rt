//! Why a mount can't go on after its scan.

/// Why a mount can't go on after its scan.
#[derive(Clone, Copy, PartialEq, Eq, Debug, Drop)]
pub enum BeginFault {
    /// The plan may not be used, it leaves no block of the part's 1,024 aside, or it isn't the one of the scan.
    BadPlan,
    /// A page is found in each block, or in the block that is to be undone.
    NoIdleBlock,
    /// With the erases that a mount may do of it, one and one in each round, a block would have had more than 4,293,918,718:
    /// the first such block.
    WornOut { block: u32 },
    /// Memory was asked for and not had.
    NoMemory,
}
