//! The picture of what the tasks of a die may ask for, with the slots that there are, by length of interval.
#![tactic(auto)]

mod amounts;
mod axes;
mod pictures;
mod sampling;
mod stores;

pub use pictures::Marked;
pub use sampling::{Point, points};
pub use stores::{Undrawn, draw_demand};
