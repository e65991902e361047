//! A clean shutdown of a die on a part, and the start after it, which needs no mount.
#![tactic(auto)]

mod laws;
mod refusals;
mod shutting;
mod starting;

pub use laws::a_die_that_was_shut_down_goes_on;
pub use refusals::{NotShutDown, NotStarted, StartRefusal, Unsaved};
pub use shutting::{save_on_part, shut_down};
pub use starting::start_up;
