//! The memory for where a mount ends.

ghost use Rattle.std.specs.Prelude.{◌≡◌, [], vec_capacity, IfOk};
ghost use Rattle.slot_types.specs.Refusal.{FailsForMemory};
ghost use Rattle.die_mount.specs.EndRoom.{room_for};

use die_checkpoint::BlockCounts;
use slot_types::{DiePlan, Place, Refusal};
use std::alloc::Global;
use std::marker::Model;

/// The memory for where a mount ends (`Mount::finish_in`), taken before. Contracts see for how many pages and blocks it
/// is, and the balances.
#[derive(Drop)]
pub struct EndMemory {
    pub(crate) places: Vec<Option<Place>>,
    pub(crate) blocks: Vec<BlockCounts>,
    /// The caps of the plan.
    pub(crate) balances: Vec<u32>,
}

impl Model for EndMemory {
    ghost use Rattle.std.specs.Prelude.{◌≡◌, [], vec_capacity};
    ghost use Rattle.die_mount.specs.EndRoom.{EndRoom};

    ghost Value = { EndRoom };

    ghost view = { λ m. record {
      pages = vec_capacity m.places;
      blocks = vec_capacity m.blocks;
      balances = m.balances.items;
    } };

    ghost invariant = { λ m. (m.places.items ≡ []) × (m.blocks.items ≡ []) };
}

impl EndMemory {
    /// The memory for where a mount of this plan ends: 12 bytes by page, 8 by block and 4 by task. Refused with `NoMemory`
    /// alone.
    pub fn take(alloc: Global, plan: &DiePlan) -> Result<EndMemory, Refusal>
        ensures room { IfOk result (λ memory. memory ≡ room_for plan.now) }
        ensures refused { FailsForMemory result }
    {
        Ok(EndMemory {
            places: Vec::with_capacity(alloc, plan.logical as usize)?,
            blocks: Vec::with_capacity(alloc, plan.shape.blocks as usize)?,
            balances: Vec::from_slice(alloc, plan.caps.as_slice())?,
        })
    }
}
