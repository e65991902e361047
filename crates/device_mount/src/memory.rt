//! The memory that a mount's end takes.

ghost use Rattle.std.specs.Prelude.{◌≡◌, IfOk};
ghost use Rattle.slot_types.specs.Refusal.{FailsForMemory};
ghost use Rattle.plan_rules.specs.Bound.{MeetsBound};

use crate::copies::plan_copy;
use die_mount::EndMemory;
use slot_core::DieMemory;
use slot_types::{DiePlan, Refusal};
use std::alloc::Global;
use std::marker::Model;

/// The memory that the end of a mount takes: for what it tells, and for the die that begins there. It is taken before the
/// first erase, so that no mount is refused for memory once its part has changed. Contracts see the plan.
#[derive(Drop)]
pub struct MountMemory {
    pub(crate) end: EndMemory,
    pub(crate) die: DieMemory,
}

impl Model for MountMemory {
    ghost use Rattle.std.specs.Prelude.{◌≡◌};
    ghost use Rattle.slot_types.specs.declared.plans.DiePlan.{DiePlan};
    ghost use Rattle.die_mount.specs.EndRoom.{room_for};

    ghost Value = { DiePlan };

    ghost view = { λ m. m.die };

    ghost invariant = { λ m. m.end ≡ room_for m.die };
}

impl MountMemory {
    /// The memory for a mount of a plan that meets its bound. Refused with `NoMemory` alone.
    pub(crate) fn take(alloc: Global, plan: &DiePlan) -> Result<MountMemory, Refusal>
        requires bound { MeetsBound plan.now }
        ensures ok { IfOk result (λ memory. memory ≡ plan.now) }
        ensures refused { FailsForMemory result }
    {
        let end = EndMemory::take(alloc, plan)?;
        let own = plan_copy(alloc, plan)?;
        let die = DieMemory::take(alloc, own)?;
        Ok(MountMemory { end, die })
    }
}
