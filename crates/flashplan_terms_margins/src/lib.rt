//! By how much each number of a plan with deadlines and bursts may change.
#![tactic(auto)]

mod attempts;
mod caps;
mod margins;
mod numbers;
mod sentences;
mod sought;

pub use attempts::{with_own, would_do};
pub use caps::{own_cap, with_cap};
pub use margins::{Margins, TaskMargins, own_terms, task_margins};
pub use numbers::{Number, with_number};
pub use sentences::{put_caps, put_margins, put_room};
