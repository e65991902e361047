//! The mount of a part after a loss of power, without a device: where each page lies by its labels, which block is
//! erased first, and then call by call what is done until a die may start.
#![tactic(auto)]

mod begin_fault;
mod end_memory;
mod erases;
mod erasing;
mod label;
mod laws;
mod mount;
mod mounted;
mod newest;
mod part;
mod scan;
mod stage;

pub use begin_fault::BeginFault;
pub use end_memory::EndMemory;
pub use erasing::FirstErase;
pub use label::Label;
pub use laws::{
    a_mount_goes_by_what_it_saw, a_mount_is_short, a_mount_may_be_cut_anywhere,
    a_mount_that_ends_leaves_a_die, a_mount_that_ends_starts_a_log,
};
pub use mount::Mount;
pub use mounted::Mounted;
pub use newest::Newest;
pub use scan::{MountFault, Scan, ScanFault};
pub use stage::{MountCall, Stage};
