//! How long a slot of a plan takes.

ghost use Rattle.std.specs.Prelude.{◌≡◌, IfOk};
ghost use Rattle.slot_types.specs.Refusal.{FailsForMemory};
ghost use Rattle.flashplan_commands.specs.Acts.{IsSlotFor};

use flashplan_slot_times::{Units, slot_in};
use slot_types::Refusal;
use std::alloc::Global;
use std::io::Write;

/// Why an option says nothing.
pub(crate) const UNKNOWN_SLOT: &str =
    "it isn't known how long a slot is, which --slot-us tells, or the plan's first line as fit writes it";

/// How long a slot of a plan takes: as asked for, or as its text begins, if it does. The only refusal is NoMemory.
pub(crate) fn slot_for(
    alloc: Global,
    plan: &[u8],
    asked: Option<u32>,
) -> Result<Option<u32>, Refusal>
    ensures slot { IfOk result (IsSlotFor asked plan.now) }
    ensures refused { FailsForMemory result }
{
    match asked {
        Some(slot_us) => Ok(Some(slot_us)),
        None => slot_in(alloc, plan),
    }
}

/// What is asked for of a slot and of a page, with the length of a slot in microseconds, if that is known.
pub(crate) fn units_with(asked: Units, slot_us: Option<u32>) -> Units
    ensures { result.slot_us ≡ slot_us }
{
    Units {
        slot_us,
        page_bytes: asked.page_bytes,
    }
}

/// Reports an option that says nothing where it isn't known how long a slot is. A writer that fails is passed over.
pub(crate) fn report_unsaid<E: Write>(
    err: &mut E,
    option: &str,
    is_asked: bool,
    slot_us: Option<u32>,
) {
    if is_asked && slot_us.is_none() {
        let _ = writeln!(err, "{option} says nothing: {UNKNOWN_SLOT}");
    }
}
