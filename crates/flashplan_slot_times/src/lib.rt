//! Numbers of slots as times: how long a slot is, and how long a number of slots, as texts.
#![tactic(auto)]

mod comments;
mod rates;
mod times;
mod units;

pub use comments::{put_slot, slot_in};
pub use rates::{Rate, Share};
pub use times::{Slots, Time};
pub use units::Units;
