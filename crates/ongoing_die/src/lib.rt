//! A die that keeps its plan itself and goes on by itself, life after life: where a life ends the next one begins, and an
//! ask that comes too late for the present life waits for the next one. One for a later slot waits for that.
#![tactic(auto)]

mod answers;
mod asks;
mod asks_ahead;
mod begun_die;
mod die_asks;
mod later_asks;
mod laws;
mod lengths;
mod next_life;
mod ongoing_die;
mod refusals;
mod resumptions;
mod slots;
mod waiting;

pub use answers::Taken;
pub use begun_die::{BegunDie, CarriedSlot, NotBegun};
pub use laws::stocked_checkpoints_go_on;
pub use ongoing_die::OngoingDie;
pub use planned_die::{PlanResumeRefusal, Shortage};
pub use planned_log::{AskKind, AskRefusal};
pub use refusals::{
    AskAtStop, AskStop, LifeStop, OngoingCheckpointRefusal, OngoingNotResumed, OngoingRefusal,
    OngoingResumeRefusal, SlotStop,
};
pub use waiting::Waiting;
