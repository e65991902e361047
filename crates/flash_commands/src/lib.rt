//! The commands of the program: what its words mean, and what each of them prints.
#![tactic(auto)]

mod acts;
pub mod audits;
mod command_line;
mod commands;
mod faults;
mod figures;
mod files;
mod heard;
mod hints;
mod laws;
mod noted;
mod plan_hints;
mod progress;
mod record_lines;
mod refusal_names;
mod report_hints;
mod report_needs;
mod run_numbers;
mod script_hints;
mod syntax;
mod values;
mod word_faults;

pub use acts::{act, carry_out};
pub use command_line::{own_words, show, words_of};
pub use commands::{Command, read_words};
pub use faults::{Fault, end};
pub use files::{Disk, Folder, Source, inputs_among, inputs_in, open, path_of};
pub use heard::Heard;
pub use hints::{Texts, report_more, report_unwritten};
pub use laws::acting_has_one_answer;
pub use noted::Noted;
pub use progress::{Shown, Watched, WatchedDisk, clears_lines};
pub use record_lines::{line_of_record, record_of};
pub use refusal_names::{RefusalName, refusal_name};
pub use run_numbers::{Slots, Workers};
pub use text_base::{Flagged, Output};
