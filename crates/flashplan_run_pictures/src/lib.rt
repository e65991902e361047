//! The picture of what the slots of a die carried, as SVG or as lines for a terminal.
#![tactic(auto)]

mod briefs;
mod cells;
mod kinds;
mod lanes;
mod layouts;
mod legends;
mod levels;
mod pictures;
mod rows;
mod rulers;
mod sentences;
mod spans;
mod terminals;
mod windows;

pub use briefs::{ActBrief, Kind, brief_of};
pub use pictures::{Counts, Scene, Worst, picture};
pub use rows::{End, Row};
pub use terminals::lines;
pub use windows::{Carried, Level, Waiver, Whose, Window};
