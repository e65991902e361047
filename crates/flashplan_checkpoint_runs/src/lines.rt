//! In which record of a checkpoint's text something of a die stands.

use checkpoint_texts::SavedDie;
use die_checkpoint::CheckpointFault;

/// A number of records, of which a text has few.
fn few(count: usize) -> u32 {
    match u32::try_from(count) {
        Ok(count) => count,
        Err(_) => u32::MAX,
    }
}

/// How many records a die has in front of its end.
fn before_end(die: &SavedDie) -> u32 {
    few(die.pages.len())
        .saturating_add(few(die.blocks.len()))
        .saturating_add(few(die.balances.len()))
}

/// The record of the first page of the first die.
pub const FIRST_LINE: u32 = 2;

/// How many records a die has.
pub fn lines_of(die: &SavedDie) -> u32 {
    before_end(die).saturating_add(1)
}

/// The record of a page of the die whose first record this is.
pub fn line_of_page(first: u32, page: u32) -> u32 {
    first.saturating_add(page)
}

/// The record at fault of the die whose first record this is: that of the page, of the block or of the task, or else the one
/// that ends the die.
pub fn line_of(first: u32, die: &SavedDie, fault: CheckpointFault) -> u32 {
    let blocks = first.saturating_add(few(die.pages.len()));
    let tasks = blocks.saturating_add(few(die.blocks.len()));
    match fault {
        CheckpointFault::Unprogrammed { page } | CheckpointFault::SharedCell { page } => {
            line_of_page(first, page)
        }
        CheckpointFault::Overfull { block }
        | CheckpointFault::SecondOpen { block }
        | CheckpointFault::WornOut { block } => blocks.saturating_add(block),
        CheckpointFault::AboveCap { task } => tasks.saturating_add(task),
        CheckpointFault::OtherShape
        | CheckpointFault::BadPlan
        | CheckpointFault::OtherSum { .. }
        | CheckpointFault::NoMemory => first.saturating_add(before_end(die)),
    }
}
