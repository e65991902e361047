//! An array of pages on a flash device, with the accounts of its free pages.
#![tactic(auto)]

mod array;
mod candidates;
mod collecting;
mod collection;
mod faults;
mod fills;
mod free_blocks;
mod memory;
mod next_calls;
mod placed_pages;
mod resumed;
mod tables;
mod volume;

pub use collection::{Began, CollectStep, Collected, Collection, Copied};
pub use memory::VolumeMemory;
pub use volume::Volume;
