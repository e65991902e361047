//! The divisors of a number.

ghost use Rattle.std.specs.Prelude.{IfOk};
ghost use Rattle.slot_types.specs.Refusal.{FailsForMemory};
ghost use Rattle.flashplan_design.specs.Divisors.{AreAllDivisors};

use slot_types::Refusal;
use std::alloc::Global;

/// All divisors of a number, rising. The only refusal is NoMemory.
pub(crate) fn all_divisors(alloc: Global, of: u32) -> Result<Vec<u32>, Refusal>
    ensures divisors { IfOk result (λ found. AreAllDivisors of found.items) }
    ensures refused { FailsForMemory result }
{
    let mut found = Vec::new(alloc);
    for below in 0..of {
        let n = below + 1;
        if of % n == 0 {
            found.push(n)?;
        }
    }
    Ok(found)
}
