//! A designer's tools: why a plan with deadlines and bursts is accepted or not.
#![tactic(auto)]

mod explained;
mod fault_texts;
mod kinds;
mod laws;
mod loads;
mod numbers;
mod timed;

pub use explained::explain_terms;
pub use kinds::is_terms_text;
pub use laws::least_caps_do;
