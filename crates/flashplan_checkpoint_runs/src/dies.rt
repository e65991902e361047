//! The dies of a store that runs.

ghost use Rattle.std.specs.Box.{box_value};
ghost use Rattle.std.specs.Prelude.{◌≡◌, ◌++◌, ◌∷◌, [], IfOk, OnOk};
ghost use Rattle.slot_types.specs.Refusal.{FailsForMemory};

use flash_die::MemoryNand;
use slot_core::DieCore;
use slot_types::Refusal;
use std::alloc::Global;

/// The dies of a store, by number.
pub type DiesOn<N> = Vec<DieCore<N>>;

/// The dies of a store in memory, by number.
pub type StoreDies = DiesOn<MemoryNand>;

/// Adds a die. It is of any type, so that the proof takes a die, which is large, as a whole. The only refusal is NoMemory.
pub fn push_die<D: Drop>(dies: &mut Vec<D>, die: D) -> Result<(), Refusal>
    ensures ok { OnOk result (dies.new.items ≡ dies.old.items ++ die ∷ []) }
    ensures refused { FailsForMemory result }
{
    dies.push(die)?;
    Ok(())
}

/// A value in a box. It is of any type, so that nothing is said of the parts of a large one. The only refusal is NoMemory.
pub fn in_box<T: Drop>(alloc: Global, value: T) -> Result<Box<T>, Refusal>
    ensures value { IfOk result (λ boxed. box_value boxed ≡ value) }
    ensures refused { FailsForMemory result }
{
    Ok(Box::new(alloc, value)?)
}
