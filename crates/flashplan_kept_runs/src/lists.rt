//! Lists that grow.

ghost use Rattle.std.specs.Prelude.{◌≡◌, ◌++◌, ◌∷◌, [], OnOk};
ghost use Rattle.slot_types.specs.Refusal.{FailsForMemory};

use slot_types::Refusal;

/// Adds one to a list. It is of any type, so that the proof takes a die, which is large, as a whole. The only refusal is
/// NoMemory.
pub(crate) fn push<T: Drop>(list: &mut Vec<T>, one: T) -> Result<(), Refusal>
    ensures ok { OnOk result (list.new.items ≡ list.old.items ++ one ∷ []) }
    ensures refused { FailsForMemory result }
{
    list.push(one)?;
    Ok(())
}
