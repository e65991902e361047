//! Flash devices: what one does, one in memory, and one that fails after some calls.
#![tactic(auto)]

mod fuse;
mod laws;
mod memory;
mod nand;

pub use fuse::FuseNand;
pub use laws::a_left_device_is_as_it_was;
pub use memory::MemoryNand;
pub use nand::{Nand, NandCall};
