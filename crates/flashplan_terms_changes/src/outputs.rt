//! What couldn't be written.

ghost use Rattle.std.specs.Prelude.{IfOk, IsOk};
ghost use Rattle.slot_types.specs.Refusal.{FailsForMemory};

use slot_types::Refusal;
use std::io;

/// A text that couldn't be written has run out of memory.
pub fn written(put: io::Result<()>) -> Result<(), Refusal>
    ensures said { IfOk result (λ _. IsOk put) }
    ensures refused { FailsForMemory result }
{
    match put {
        Ok(()) => Ok(()),
        Err(_) => Err(Refusal::NoMemory),
    }
}
