//! A die that keeps its plan itself: its tasks ask, it enters its collections, and what it accepts is done in time.
#![tactic(auto)]

mod all_asks;
mod asks;
mod begun_slots;
mod burst_jobs;
mod bursts;
mod collections;
mod lacks;
mod later_asks;
mod laws;
mod life;
mod memory;
mod next_collections;
mod planned_die;
mod refusals;
mod renewals;
mod resumed;
mod resumptions;
mod rooms;
mod slots;
mod task_asks;
mod terms;

pub use bursts::Burst;
pub use lacks::{Shortage, first_shortage};
pub use laws::{begun_slots_are_slots, full_checkpoints_are_stocked};
pub use memory::AskedJob;
pub use planned_die::PlannedDie;
pub use planned_log::{AskKind, AskRefusal};
pub use refusals::{LifeRefusal, PlanRefusal};
pub use resumptions::{PlanNotResumed, PlanResumeRefusal};
