//! The log by entries, as C has it.

ghost use Rattle.std.specs.Prelude.{◌≡◌, Some};
ghost use Rattle.stepped_die.specs.Stepped.{Stepped};
ghost use Rattle.flash_c.specs.Entries.{what_of, job_of, at_of, entry_of, accepts, caller_in, first_waived, SaysEntries, SaysWaivers};
ghost use Rattle.flash_c.specs.Lists.{array_with};
ghost use Rattle.flash_c.specs.Slots.{waived_of};

use crate::codes::OK;
use crate::counts::count_of;
use crate::handles::{Handle, put, take};
use crate::shapes::{FlashEntry, FlashWaived};
use crate::slots::waived_of;
use event_log::{Deed, NoteParts, NotesFrom, WaivedOf};
use std::alloc::Global;

/// The number of what an entry is of.
fn what_of(deed: Deed) -> u32
    ensures { result ≡ what_of deed }
{
    match deed {
        Deed::Submit { .. } => 0,
        Deed::Collect { .. } => 1,
        Deed::Idle => 2,
        Deed::Operation { .. } => 3,
        Deed::LastOperation { .. } => 4,
        Deed::CopyRead { .. } => 5,
        Deed::CopyProgram { .. } => 6,
        Deed::EraseSlot { .. } => 7,
        Deed::LastEraseSlot { .. } => 8,
    }
}

/// The job or collection of an entry, or 0.
fn job_of(deed: Deed) -> u32
    ensures { result ≡ job_of deed }
{
    match deed {
        Deed::Idle => 0,
        Deed::Submit { number } | Deed::Collect { number } => number.0,
        Deed::Operation { number, .. } | Deed::LastOperation { number, .. } => number.0,
        Deed::CopyRead { number, .. } | Deed::CopyProgram { number, .. } => number.0,
        Deed::EraseSlot { number, .. } | Deed::LastEraseSlot { number, .. } => number.0,
    }
}

/// The place of the operation, the page or the block of an entry, or 0.
fn at_of(deed: Deed) -> u32
    ensures { result ≡ at_of deed }
{
    match deed {
        Deed::Idle | Deed::Submit { .. } | Deed::Collect { .. } => 0,
        Deed::Operation { place, .. } | Deed::LastOperation { place, .. } => place,
        Deed::CopyRead { page, .. } | Deed::CopyProgram { page, .. } => page,
        Deed::EraseSlot { block, .. } | Deed::LastEraseSlot { block, .. } => block,
    }
}

fn entry_of(note: &NoteParts) -> FlashEntry
    ensures { result
        ≡ entry_of (record {
          caller = note.now.caller;
          deed = note.now.deed;
          waived = note.now.waived;
        }) }
{
    FlashEntry {
        what: what_of(note.deed),
        caller: note.caller,
        job: job_of(note.deed),
        at: at_of(note.deed),
        waived: count_of(note.waived.len()),
    }
}

/// Whether a job or collection of this number was accepted.
fn accepts(deed: Deed, number: u32) -> bool
    ensures { result ≡ accepts number deed }
{
    match deed {
        Deed::Submit { number: own } | Deed::Collect { number: own } => own.0 == number,
        _ => false,
    }
}

/// Who submitted the job or collection of this number, which is taken off the notes with all before it; or 0.
pub(crate) fn caller_of_job(notes: &mut NotesFrom, number: u32) -> u32
    ensures { result ≡ caller_in notes.old number }
{
    while let Some(note) = notes.pop() {
        if accepts(note.deed, number) {
            return note.caller;
        }
    }
    0
}

fn put_entries(places: &mut [FlashEntry], notes: &mut NotesFrom)
    ensures { places.new ≡ array_with entry_of places.old notes.old }
{
    for i in 0..places.len() {
        let Some(note) = notes.pop() else {
            return;
        };
        places[i] = entry_of(&note);
    }
}

fn put_waivers(places: &mut [FlashWaived], waived: &WaivedOf)
    ensures { places.new ≡ array_with waived_of places.old waived.now }
{
    for i in 0..places.len().min(waived.len()) {
        places[i] = waived_of(waived.get(i).unwrap());
    }
}

/// What the first note waived, which is taken off.
#[tactic(auto, using(crate::proofs::Filling::filled_none))]
fn put_first_waivers(places: &mut [FlashWaived], notes: &mut NotesFrom)
    ensures { places.new ≡ array_with waived_of places.old (first_waived notes.old) }
{
    let Some(note) = notes.pop() else {
        return;
    };
    put_waivers(places, &note.waived);
}

/// The entries of the log from this one on, as far as there is room.
#[unsafe(no_mangle)]
pub extern "C" fn flash_entries(
    alloc: Global,
    die: &mut Handle,
    from: u32,
    entries: &mut [FlashEntry],
) -> u32
    ghost held: { Stepped }
    requires full { die.old.value ≡ Some held }
    ensures same { die.new.value ≡ Some held }
    ensures said { SaysEntries held.core.log from entries.old entries.new }
    ensures well { result ≡ 0 }
{
    let boxed = take(alloc, die);
    let mut rest = boxed.core().notes_from(from);
    put_entries(entries, &mut rest);
    put(die, boxed);
    OK
}

/// The collections that were waived in an entry's slot, as far as there is room; none where there is no such entry.
#[unsafe(no_mangle)]
pub extern "C" fn flash_waived(
    alloc: Global,
    die: &mut Handle,
    entry: u32,
    waived: &mut [FlashWaived],
) -> u32
    ghost held: { Stepped }
    requires full { die.old.value ≡ Some held }
    ensures same { die.new.value ≡ Some held }
    ensures said { SaysWaivers held.core.log entry waived.old waived.new }
    ensures well { result ≡ 0 }
{
    let boxed = take(alloc, die);
    let mut rest = boxed.core().notes_from(entry);
    put_first_waivers(waived, &mut rest);
    put(die, boxed);
    OK
}
