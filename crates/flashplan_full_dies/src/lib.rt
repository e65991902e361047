//! Full dies: the dies of a store after enough lives by their plan for each of their logical pages to lie in a cell.
#![tactic(auto)]

mod copies;
mod faults;
mod fills;
mod lives;
mod pages;
mod writers;

pub use faults::FillFault;
pub use fills::{Filled, MOST_LIVES, fill};
pub use pages::{HeldPages, are_full, held_pages};
