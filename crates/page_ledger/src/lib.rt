//! The accounts of a die's free pages: which of them are promised, to whom, and which are spare.
#![tactic(auto)]

mod accounts;
mod laws;
mod resumed;

pub use accounts::Ledger;
pub use laws::{grows_to_cap, writes_alone_lower_owned};
