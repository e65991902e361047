//! How the script of a plan's arrivals is made.

ghost use Rattle.std.specs.Prelude.{IfErr};
ghost use Rattle.flashplan_arrivals.specs.PlannedScripts.{IsOwnFault};

use crate::askers::askers_of;
use crate::chances::Chance;
use crate::faults::Fault;
use crate::jobs::Asker;
use crate::manners::Manner;
use slot_types::{MAX_SLOT, Refusal, StorePlan};
use std::alloc::Global;
use std::io;

/// The most bytes of a script that is read.
const MAX_BYTES: usize = 67_108_864;

/// Whether something that has this period comes in a slot: it does at its multiples, where a period is left until the last
/// due that a die accepts.
fn comes(slot: u32, period: u32) -> bool {
    slot % period.max(1) == 0 && slot.saturating_add(period) <= MAX_SLOT
}

/// Adds the job of a task in a slot, if it comes, and chooses when the next one does. While it fills its pages, all jobs come,
/// and none late.
fn put_next(
    text: &mut Vec<u8>,
    chance: &mut Chance,
    asker: &mut Asker<'_>,
    slot: u32,
    manner: Manner,
) -> io::Result<()> {
    let regular = asker.to_fill > 0;
    if regular || manner.load >= 100 || chance.below(100) < manner.load {
        asker.put_job(text, chance, slot)?;
    }
    let late = if regular || manner.jitter == 0 {
        0
    } else {
        chance.below(manner.jitter.saturating_add(1))
    };
    asker.next = slot.saturating_add(asker.times.period).saturating_add(late);
    Ok(())
}

/// Chooses when the first job of each task comes, unless it fills its pages.
fn draw_phases(chance: &mut Chance, askers: &mut Vec<Asker<'_>>) {
    for asker in askers.as_mut_slice() {
        if asker.to_fill == 0 {
            asker.next = chance.below(asker.times.period);
        }
    }
}

/// Adds what a task asks for in a slot: its collection first.
fn put_task(
    text: &mut Vec<u8>,
    chance: &mut Chance,
    asker: &mut Asker<'_>,
    slot: u32,
    manner: Manner,
) -> io::Result<()> {
    if comes(slot, asker.times.collect_period) {
        asker.put_collection(text, slot)?;
    }
    if slot == asker.next && slot.saturating_add(asker.times.period) <= MAX_SLOT {
        put_next(text, chance, asker, slot, manner)?;
    }
    Ok(())
}

/// Adds what all tasks ask for in a slot.
fn put_slot(
    text: &mut Vec<u8>,
    chance: &mut Chance,
    askers: &mut Vec<Asker<'_>>,
    slot: u32,
    manner: Manner,
) -> io::Result<()> {
    for place in 0..askers.len() {
        put_task(text, chance, &mut askers[place], slot, manner)?;
    }
    Ok(())
}

/// The script of what each task of a store asks for in `slots` slots, slot by slot, of which these pages lie in cells
/// already.
pub fn script(
    alloc: Global,
    plan: &StorePlan,
    slots: u32,
    manner: Manner,
    held: &[Vec<bool>],
) -> Result<Vec<u8>, Fault>
    ensures { IfErr result IsOwnFault }
{
    let mut askers = askers_of(alloc, plan, slots, manner.fills, held)?;
    let mut chance = Chance::new(manner.seed);
    if manner.phases {
        draw_phases(&mut chance, &mut askers);
    }
    let mut text = Vec::new(alloc);
    text.extend_from_slice(b"at,die,task,kind,release,due,ops\n")?;
    for slot in 0..slots {
        if put_slot(&mut text, &mut chance, &mut askers, slot, manner).is_err() {
            return Err(Fault::Refused(Refusal::NoMemory));
        }
        if text.len() > MAX_BYTES {
            return Err(Fault::TooLong);
        }
    }
    Ok(text)
}
