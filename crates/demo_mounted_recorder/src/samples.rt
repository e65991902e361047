//! What the recorder writes on a page: which page it is, the number of the write, and a check sum.

use file_nand::check_sum;
use slot_types::PageData;

/// The bytes of a page, numbers with their lowest byte first: the write's number (8 bytes), the page (4), and the check
/// sum of both (4).
pub(crate) fn sample(page: u32, number: u64) -> PageData {
    let mut bytes = [0; 16];
    bytes[0..8].copy_from_slice(&number.to_le_bytes());
    bytes[8..12].copy_from_slice(&page.to_le_bytes());
    let sum = check_sum(&bytes[0..12]).to_le_bytes();
    bytes[12..16].copy_from_slice(&sum);
    PageData(bytes)
}

/// The number of the write that a page has: 0 of a page that was never written, and none of one that has something else.
pub(crate) fn number_in(page: u32, bytes: PageData) -> Option<u64> {
    if bytes == PageData::BLANK {
        return Some(0);
    }
    let mut number = [0; 8];
    number.copy_from_slice(&bytes.0[0..8]);
    let number = u64::from_le_bytes(number);
    if bytes == sample(page, number) {
        Some(number)
    } else {
        None
    }
}
