//! What is kept of a cell: its label and its bytes, and a check sum over these and the cell's own address.

use crate::sums::check_sum;
use die_mount::Label;
use labelled_nand::MarkedCell;
use slot_types::{PageData, Place};

/// What is kept of a cell, numbers with their lowest byte first: a mark, the page (4 bytes) and the serial (8) of its
/// label, the page's bytes (16), and the check sum (4).
pub type Record = [u8; 36];

/// What is kept of a cell that is erased.
pub const ERASED: Record = [0; 36];

/// The mark of a program that was given its page. Without it a cell isn't good.
const LABELLED: [u8; 4] = *b"cell";

/// The mark of a program that wasn't.
const BARE: [u8; 4] = *b"bare";

const NO_LABEL: Label = Label { page: 0, serial: 0 };

/// A cell without a label.
const TORN: MarkedCell = MarkedCell {
    bytes: PageData::BLANK,
    label: None,
};

/// The check sum of a record at this address: over the block, the cell in it, and all of the record before the sum.
fn sum_of(place: Place, record: &Record) -> [u8; 4] {
    let mut summed = [0u8; 40];
    summed[0..4].copy_from_slice(&place.block.to_le_bytes());
    summed[4..8].copy_from_slice(&place.page.to_le_bytes());
    summed[8..40].copy_from_slice(&record[0..32]);
    check_sum(&summed).to_le_bytes()
}

/// What is kept of a programmed cell at this address.
pub(crate) fn record_of(place: Place, cell: &MarkedCell) -> Record {
    let (mark, label) = match cell.label {
        Some(label) => (LABELLED, label),
        None => (BARE, NO_LABEL),
    };
    let mut record = ERASED;
    record[0..4].copy_from_slice(&mark);
    record[4..8].copy_from_slice(&label.page.to_le_bytes());
    record[8..16].copy_from_slice(&label.serial.to_le_bytes());
    record[16..32].copy_from_slice(&cell.bytes.0);
    let sum = sum_of(place, &record);
    record[32..36].copy_from_slice(&sum);
    record
}

/// Whether a record is of a whole program at this address, which was given its page.
fn is_good(place: Place, record: &Record) -> bool {
    let sum = sum_of(place, record);
    record[0..4] == LABELLED[..] && record[32..36] == sum[..]
}

/// The label and the bytes of a record.
fn parts_of(record: &Record) -> (Label, PageData) {
    let (mut page, mut serial, mut bytes) = ([0; 4], [0; 8], [0; 16]);
    page.copy_from_slice(&record[4..8]);
    serial.copy_from_slice(&record[8..16]);
    bytes.copy_from_slice(&record[16..32]);
    let label = Label {
        page: u32::from_le_bytes(page),
        serial: u64::from_le_bytes(serial),
    };
    (label, PageData(bytes))
}

/// The cell at this address of which this is kept: with a label where it is good, and else without.
pub(crate) fn cell_of(place: Place, record: &Record) -> MarkedCell {
    if !is_good(place, record) {
        return TORN;
    }
    let (label, bytes) = parts_of(record);
    MarkedCell {
        bytes,
        label: Some(label),
    }
}
