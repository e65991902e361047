//! Whether a script keeps the plans of its dies, with deadlines and bursts, and if not, what breaks them first.
#![tactic(auto)]

mod keeping;
mod sentences;
mod verdicts;
mod windows;

pub use keeping::keep_terms;
pub use sentences::sentence;
pub use verdicts::{Broken, Verdict};
