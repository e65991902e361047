//! A designer's tools: why a plan is accepted or not, and what would mend it.
#![tactic(auto)]

mod all_divisors;
mod alpha_texts;
mod alphas;
mod attempts;
mod bounds;
mod causes;
mod change_texts;
mod changes;
mod commons;
mod divisors;
mod explained;
mod faults;
mod findings;
mod first_faults;
mod found;
mod lifetimes;
mod limits;
mod loads;
mod numbers;
mod plan_commons;
mod ranges;
mod sayings;
mod solves;
mod solving;
mod subjects;
mod trials;
mod wholes;

pub use alphas::{AlphaRow, alpha_rows};
pub use changes::{Change, ranked_changes};
pub use commons::{Periods, are_divisors, least_common};
pub use divisors::{greatest_collect_period, least_period};
pub use explained::{Explained, explain};
pub use findings::{AlphaFinding, Finding, OwnNumber, OwnPeriods, OwnWork, Taken, TaskFinding};
pub use numbers::Number;
pub use plan_commons::least_common_of_all;
pub use solves::findings_of;
pub use solving::{greatest, least};
pub use subjects::TaskName;
pub use trials::{greatest_logical, least_blocks};
pub use wholes::{all_do, greatest_logical_of_all, least_blocks_of_all, others_do};
