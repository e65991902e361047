//! What the texts of plans, scripts and reports share: readers within a bound, records of csv, numbers, pages and lists
//! of words, and readers and writers that say whether they failed.
#![tactic(auto)]

mod bounded;
mod calls;
mod csv_records;
mod inputs;
mod numbers;
mod ops;
mod outputs;
mod pages;
mod word_sinks;
mod words;
mod writing;

pub use bounded::Bounded;
pub use calls::read_again;
pub use csv_records::{field_in, is_named, rows_in, rows_up_to, take_row};
pub use inputs::{FlaggedReader, Input};
pub use numbers::number;
pub use outputs::{Flagged, Output};
pub use pages::{page, put_page};
pub use word_sinks::WordSink;
pub use words::{count_pages, list, put_list};
pub use writing::write_whole;
