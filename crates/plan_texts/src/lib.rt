//! Plans as texts: their reader.
#![tactic(auto)]

mod laws;
mod numbers;
mod plan_reading;
mod stores;
mod tables;

pub use laws::reading_a_plan_from_a_reader_has_one_answer;
pub use numbers::{PlanNumbers, TaskList, TaskNumbers, TopNumbers, plan_numbers};
pub use plan_reading::{plan_text, read_plan_from};
pub use stores::{die_plan, read_plan};
