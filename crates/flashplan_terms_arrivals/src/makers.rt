//! How the script of a plan's arrivals is made.

ghost use Rattle.std.specs.Prelude.{IfErr};
ghost use Rattle.flashplan_arrivals.specs.PlannedScripts.{IsOwnFault};

use crate::askers::askers_of;
use crate::bursts::Asker;
use crate::counts::check_lives;
use flashplan_arrivals::{Chance, Fault};
use slot_types::{MAX_SLOT, Refusal};
use std::alloc::Global;
use std::io;
use terms_texts::StoreTerms;

/// The most bytes of a script that is read.
const MAX_BYTES: usize = 67_108_864;

/// Whether something that has this period and this deadline comes in a slot: it does at the period's multiples, where a
/// deadline is left until 1,048,576.
fn comes(slot: u32, period: u32, deadline: u32) -> bool {
    slot % period.max(1) == 0 && slot.saturating_add(deadline) <= MAX_SLOT
}

/// Adds what a task asks for in a slot: its collection first.
fn put_task(text: &mut Vec<u8>, chance: &mut Chance, asker: &Asker, slot: u32) -> io::Result<()> {
    let own = &asker.terms;
    if comes(slot, own.collect_period, own.collect_deadline) {
        asker.put_collection(text, slot)?;
    }
    if comes(slot, own.period, own.deadline) {
        asker.put_burst(text, chance, slot)?;
    }
    Ok(())
}

/// Adds what all tasks ask for in a slot.
fn put_slot(
    text: &mut Vec<u8>,
    chance: &mut Chance,
    askers: &[Asker],
    slot: u32,
) -> Result<(), Fault>
    ensures { IfErr result IsOwnFault }
{
    for asker in askers {
        if put_task(text, chance, asker, slot).is_err() {
            return Err(Fault::Refused(Refusal::NoMemory));
        }
        if text.len() > MAX_BYTES {
            return Err(Fault::TooLong);
        }
    }
    Ok(())
}

/// The script of what each task of a store asks for in `slots` slots, slot by slot.
pub(crate) fn script(
    alloc: Global,
    store: &StoreTerms,
    slots: u32,
    seed: u32,
) -> Result<Vec<u8>, Fault>
    ensures { IfErr result IsOwnFault }
{
    check_lives(store, slots)?;
    let askers = askers_of(alloc, store)?;
    let mut chance = Chance::new(seed);
    let mut text = Vec::new(alloc);
    text.extend_from_slice(b"at,die,task,kind,release,due,ops\n")?;
    for slot in 0..slots {
        put_slot(&mut text, &mut chance, &askers, slot)?;
    }
    Ok(text)
}
