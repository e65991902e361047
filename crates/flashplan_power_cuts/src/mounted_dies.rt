//! The die that begins where a mount of a part has ended.

ghost use Rattle.std.specs.Prelude.{◌≡◌, false, IfOk};
ghost use Rattle.std.specs.Box.{box_value};
ghost use Rattle.slot_types.specs.Refusal.{FailsForMemory};
ghost use Rattle.stepped_die.specs.Names.{GoesOn};

use crate::said::content_of;
use die_checkpoint::CheckpointFault;
use flashplan_labelled_parts::{Misuse, MountEnd, Part, Unmounted};
use slot_types::{DiePlan, Place, Refusal};
use std::alloc::Global;
use stepped_die::SteppedDie;

/// A value in a box. It is of any type, so that nothing is said of the parts of a large one. The only refusal is
/// NoMemory.
pub(crate) fn in_box<T: Drop>(alloc: Global, value: T) -> Result<Box<T>, Refusal>
    ensures value { IfOk result (λ boxed. box_value boxed ≡ value) }
    ensures refused { FailsForMemory result }
{
    Ok(Box::new(alloc, value)?)
}

/// A plan like this one.
fn copy_of(plan: &DiePlan) -> Result<DiePlan, Unmounted>
    ensures { IfOk result (λ copy. copy ≡ plan.now) }
{
    match plan.clone() {
        Ok(copy) => Ok(copy),
        Err(_) => Err(Unmounted::NoMemory),
    }
}

/// The die by what the mount has.
fn goes_on(alloc: Global, plan: &DiePlan, end: &MountEnd) -> Result<Box<SteppedDie>, Unmounted>
    ensures { IfOk result (λ die.
        GoesOn plan.now end.now.mounted.checkpoint end.now.names.items (box_value die)) }
{
    let names = end.names.as_slice();
    match SteppedDie::mounted(alloc, copy_of(plan)?, &end.mounted, names) {
        Ok(die) => Ok(in_box(alloc, die)?),
        Err(CheckpointFault::NoMemory) => Err(Unmounted::NoMemory),
        Err(_) => Err(Unmounted::Unfit),
    }
}

/// The die that begins where a mount of a part has ended. The part has to have each page where the die has it, or the
/// part counts as not mounted.
pub fn mounted_die(
    alloc: Global,
    plan: &DiePlan,
    part: &Part,
    end: &MountEnd,
) -> Result<Box<SteppedDie>, Unmounted>
    ensures { IfOk result (λ die.
        GoesOn plan.now end.now.mounted.checkpoint end.now.names.items (box_value die)) }
{
    let die = goes_on(alloc, plan, end)?;
    check_pages(part, &die)?;
    Ok(die)
}

/// Whether the part has each page of a die where the die has it.
fn check_pages(part: &Part, die: &SteppedDie) -> Result<(), Unmounted>
    requires { die.now.core.stopped ≡ false }
{
    for page in 0..die.core().plan().logical {
        if let Some(place) = die.core().place(page) {
            let cell = Place {
                block: die.part_block(place.block),
                page: place.page,
            };
            if part.read(cell) != Ok(content_of(die, page)) {
                return Err(Unmounted::Misused(Misuse::NotGood));
            }
        }
    }
    Ok(())
}
