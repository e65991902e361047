//! The arguments of both programs, as clap reads them, and the version of both.
#![tactic(auto)]

mod arguments;
mod words;

pub use arguments::{defaulted, flag, needed, option, plan_file, required, script_file, slots};
pub use words::{value_at, value_in};

/// The version of the programs.
pub const VERSION: &str = "0.3.0";
