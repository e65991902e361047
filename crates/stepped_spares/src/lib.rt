//! The table of a part with spare blocks, for a driver that makes the part's calls itself: a call that failed is
//! answered with the calls to make next.
#![tactic(auto)]

mod begun;
mod carried;
mod erased;
mod failed;
mod laws;
mod moves;
mod numbered;
mod scan;
mod started;
mod table;

pub use carried::{carry, replace_program};
pub use erased::erase_first;
pub use laws::a_bad_block_never_comes_back;
pub use moves::{Move, Outcome, Stage};
pub use scan::{LabelScan, TellFault};
pub use started::{begin_on, power_up_on};
pub use table::SpareTable;
