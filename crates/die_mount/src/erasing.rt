//! Which block a mount erases first.

/// Which block a mount erases first.
#[derive(Clone, Copy, PartialEq, Eq, Debug, Drop)]
pub enum FirstErase {
    /// One in which no page is found: of these the one with the least number.
    Idle { block: u32 },
    /// There is none, and this block shows the greatest serial: the mount before was cut as it copied pages there.
    Undo { block: u32 },
}
