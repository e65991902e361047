//! What stands on the dies of a store, as a text: its reader and its writer.
#![tactic(auto)]

mod fault;
mod gathered;
mod item_reading;
mod items;
mod laws;
mod lines;
mod reading;
mod saved;
mod writing;

pub use fault::{RecordFault, TextFault};
pub use laws::{
    checkpoints_come_back, checkpoints_fit, reading_a_checkpoint_has_one_answer,
    writing_a_checkpoint_has_one_answer,
};
pub use reading::CheckpointReader;
pub use saved::{SavedDie, SavedPage, SavedStore};
pub use writing::write_checkpoint;
