//! Whether events keep to a plan with deadlines and bursts, and where they break it.
#![tactic(auto)]

mod by_slot;
mod collecting;
mod keeping;
mod overfull;
mod planning;
mod sliding;
mod windows;

pub use keeping::{Breach, keeps_demand_plan};
pub use planning::{CollectionRule, JobRule};
pub use windows::Count;
