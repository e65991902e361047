//! Scripts as texts: their reader.
#![tactic(auto)]

mod laws;
mod row_texts;
mod script_rows;
mod scripts;
mod steps;

pub use laws::reading_the_next_item_has_one_answer;
pub use row_texts::RowTexts;
pub use script_rows::{RowHead, ScriptItem, read_ops};
pub use scripts::ScriptReader;
