//! Spare blocks of a part take the place of blocks that fail.
#![tactic(auto)]

mod blocks;
mod cells;
mod fill;
mod labelled;
mod labels;
mod memory;
mod part;
mod powering;
mod prepare;
mod table;

pub use blocks::{Health, SpareBlocks};
pub use cells::{BlockUse, Cell, Ended, Erased, Mark};
pub use labelled::LabelledWearing;
pub use memory::{Failures, WearingMemory};
pub use part::WearingNand;
pub use powering::{Group, Labelled, NotPowered, group_of, needed, with_cell};
pub use table::BlockTable;
