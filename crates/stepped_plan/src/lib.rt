//! A die that keeps its plan itself and goes on by itself, whose slots are begun and ended: `begin` answers the one call of
//! the device that the present slot needs, the driver does it, and `end` takes what the device answered.
#![tactic(auto)]

mod asks;
mod laws;
mod plan;
mod questions;
mod refusals;
mod resumptions;
mod slots;
mod stage;

pub use laws::{
    a_mounted_plan_begins_a_life, mounted_plans_go_on, serials_number_planned_programs,
};
pub use ongoing_die::{
    AskKind, AskRefusal, AskStop, LifeStop, OngoingCheckpointRefusal, OngoingRefusal,
    OngoingResumeRefusal, PlanResumeRefusal, Shortage, SlotStop, Taken,
};
pub use plan::SteppedPlan;
pub use refusals::{PlanAskStop, PlanCheckpointRefusal, PlanSlotStop};
pub use stage::Stage;
