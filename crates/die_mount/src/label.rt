//! What is reported to a mount of a cell.

/// What a program left in a cell beside the bytes, where the cell is good.
#[derive(Clone, Copy, PartialEq, Eq, Debug, Drop)]
pub struct Label {
    /// The logical page.
    pub page: u32,
    /// The number of the program, which rises with each program of the part over all its lives.
    pub serial: u64,
}

impl Label {
    /// Serials are below this: 2^63.
    pub const SERIALS: u64 = 1 << 63;
}
