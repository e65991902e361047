//! The choice of the block that a collection erases: the closed block with the fewest valid pages.
#![tactic(auto)]

mod lists;
mod ties;
mod victims;

pub use victims::Victims;
