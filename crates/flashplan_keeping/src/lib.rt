//! Whether a script keeps the plans of its dies, and if not, what breaks them first.
#![tactic(auto)]

mod die_rows;
mod keeping;
pub mod phrases;
mod sentences;
mod verdicts;
mod whole_texts;

pub use die_rows::{Line, die_lines};
pub use keeping::keep;
pub use sentences::sentence;
pub use verdicts::{Broken, Verdict};
pub use whole_texts::script_text;
