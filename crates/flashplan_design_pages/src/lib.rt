//! One page for a design: from a datasheet the plan that is found, its test by task, a run of it, its wear, its memory, and
//! what a mount would cost.
#![tactic(auto)]

mod costs;
mod demands;
mod design_plans;
mod escapes;
mod facts;
mod figures;
mod heads;
mod lives;
mod memory;
mod mounts;
mod needs;
mod numbers;
mod pages;
mod parts;
mod records;
mod run_texts;
mod runs;
mod scoped_pictures;
mod tasks;
mod verdicts;
mod wearing;

pub use memory::{DieMemory, LifeWork, MemoryShape, memory_of};
pub use mounts::{MountCost, mount_cost};
pub use numbers::{Count, Lateness, Span, Thousandths, Time};
pub use pages::design;
pub use wearing::{Wear, worn_by};
