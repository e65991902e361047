//! The mount of a die from its own device.
#![tactic(auto)]

mod beginning;
mod copies;
mod ending;
mod laws;
mod memory;
mod mounts;
mod refusals;
mod undoing;

pub use beginning::{BegunMount, begin};
pub use ending::finish;
pub use laws::{
    a_blank_part_stands, a_mounted_life_may_be_the_first, a_part_that_stands_has_a_block_to_erase,
};
pub use memory::MountMemory;
pub use mounts::mount;
pub use refusals::{MountRefusal, NotMounted};
