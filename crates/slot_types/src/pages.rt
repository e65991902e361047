//! Pages: their bytes, and the cells of a die that hold them.

/// The bytes of a page.
#[derive(Clone, Copy, PartialEq, Eq, Debug, Drop)]
pub struct PageData(pub [u8; 16]);

impl PageData {
    /// What a page reads as that was never written, or was trimmed since: sixteen bytes 0xFF.
    pub const BLANK: PageData = PageData([255; 16]);
}

/// A cell of a die: a page of a block, both from 0.
#[derive(Clone, Copy, PartialEq, Eq, Debug, Drop)]
pub struct Place {
    pub block: u32,
    pub page: u32,
}
