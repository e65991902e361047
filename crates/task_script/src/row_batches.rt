//! Batches of the rows of a die, which are sent to where it is run.

use script_texts::RowTexts;

/// Rows of one die that come next, as they stand.
#[derive(Drop)]
pub struct RowBatch {
    pub rows: RowTexts,
    /// The die then runs up to its last row, and at least up to this slot, which is 0 except in the last batch.
    pub until: u32,
}
