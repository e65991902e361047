//! What would mend a plan with deadlines and bursts: what each alpha comes to with the numbers that go with it, and the
//! cheapest changes.
#![tactic(auto)]

mod alpha_texts;
mod alphas;
mod asked_numbers;
mod change_texts;
mod changes;
mod nearest;
mod nearest_alpha;
mod outputs;
mod plan_numbers;

pub use alpha_texts::put_alphas;
pub use alphas::{AlphaRow, row_of, with_alpha};
pub use asked_numbers::Asked;
pub use change_texts::put_cheapest;
pub use changes::{Change, ranked_changes};
pub use outputs::written;
pub use plan_numbers::PlanNumber;
