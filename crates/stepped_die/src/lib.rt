//! A die whose slots are begun and ended: `begin` answers the one call of the device that the present slot needs, the
//! driver does it, and `end` takes what the device answered. A slot whose call failed is not in the log.
#![tactic(auto)]

mod calls;
mod die;
mod laws;
mod mirror;
mod mount_laws;
mod part;
mod refusals;
mod resumptions;

pub use calls::{Begun, Call};
pub use die::{SteppedDie, is_done, reported_by};
pub use laws::{
    an_arrival_has_one_answer, arrivals_leave_the_slot, beginning_a_slot_has_one_answer,
    ending_a_slot_has_one_answer,
};
pub use mirror::MirrorNand;
pub use mount_laws::{a_mounted_die_begins_a_life, serials_number_programs};
pub use part::{Part, on_part, serial_after, spends};
pub use refusals::{StepCheckpointRefusal, StepRefusal, StepRenewalRefusal};
pub use resumptions::{NamedCheckpoint, names_of};
