//! What a run of a die came to, by task and in all: its jobs and collections, how late the jobs were, what its slots carried, and
//! how low its tokens and its spare pages fell; as a table for eyes, or as CSV.
#![tactic(auto)]

mod columns;
mod counts;
mod csv;
mod ends;
mod figures;
mod lasting_rows;
mod levels;
mod lives;
mod quantities;
mod ranks;
mod records;
mod slot_counts;
mod table_cells;
mod tables;

pub use counts::DieCounts;
pub use csv::put_csv;
pub use ends::{EndCounts, Ended, JobEnd};
pub use figures::Figure;
pub use levels::{Levels, Low, Tokens};
pub use lives::{FEWEST_ERASES, Lasting, Life, Rate, Wearing};
pub use quantities::{Quantity, Unit};
pub use ranks::{mean, nearest_rank};
pub use records::{DieFigures, Figures, Lateness, OwnFigures, Records, records_of};
pub use slot_counts::SlotCounts;
pub use tables::put_table;
