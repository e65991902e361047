//! A mount is carried out on a device that keeps labels, call by call.
#![tactic(auto)]

mod carrying;
mod laws;
mod part_mount;

pub use laws::a_part_may_be_cut_anywhere;
pub use part_mount::{MountParts, PartMount};
