//! What came of a cut, in sentences.

ghost use Rattle.std.specs.Prelude.{◌≡◌, ◌++◌, IfOk, OnOk, Some, codes, false, flat_map};
ghost use Rattle.slot_types.specs.Refusal.{FailsForMemory};
ghost use Rattle.flashplan_power_cuts.specs.Texts.{IsCutText, act_text, aside_line, call_line, call_text, calls_text, cell_text, cut_text, erasing_text};
ghost use Rattle.flashplan_power_cuts.specs.Texts.{gives_text, has_page, in_erase_text, left_text, mount_line, mount_text, page_line, pages_text};
ghost use Rattle.flashplan_power_cuts.specs.Texts.{runs_text, slot_text, undone_text, unit_text};

use crate::cut_dies::{CutDie, Ended};
use crate::erasing::{InErase, erase_slot, erasing_of};
use crate::runs::CutRun;
use crate::said::{Gives, Lost, PageSaid, content_of};
use crate::written_pages::is_written;
use flashplan_labelled_parts::{Leaves, MountCosts, MountEnd, PartCall};
use flashplan_slot_times::Slots;
use slot_core::NextAct;
use slot_types::{JobNo, Refusal};
use std::alloc::Global;
use std::io;
use std::io::Write;
use stepped_die::Begun;
use text_base::put_page;

/// Adds what an act does, and the job or collection that has its slot.
fn put_act(text: &mut Vec<u8>, job: JobNo, act: NextAct) -> io::Result<()>
    ensures { OnOk result (text.new.items ≡ text.old.items ++ act_text job act) }
{
    let job = job.0;
    match act {
        NextAct::Read { page } => write!(text, "job {job} reads page {page} in"),
        NextAct::Write { page } => write!(text, "job {job} writes page {page} to"),
        NextAct::Trim { page } => write!(text, "job {job} trims page {page}"),
        NextAct::CopyRead { page } => write!(text, "collection {job} reads page {page} in"),
        NextAct::CopyProgram { page } => write!(text, "collection {job} copies page {page} to"),
        NextAct::Erase { .. } => write!(text, "collection {job} erases"),
    }
}

/// Adds what a slot does.
fn put_runs(text: &mut Vec<u8>, runs: Option<(JobNo, NextAct)>) -> io::Result<()>
    ensures { OnOk result (text.new.items ≡ text.old.items ++ runs_text runs) }
{
    match runs {
        Some((job, act)) => put_act(text, job, act),
        None => Ok(()),
    }
}

/// Adds where it does that; of an erase, in which of its slots.
fn put_cell(text: &mut Vec<u8>, call: PartCall, slot: u32) -> io::Result<()>
    ensures { OnOk result (text.new.items ≡ text.old.items ++ cell_text call slot) }
{
    match call {
        PartCall::Read { place } => {
            let (block, cell) = (place.block, place.page);
            write!(text, " block {block} cell {cell}")
        }
        PartCall::Program { place, label, .. } => {
            let (block, cell, serial) = (place.block, place.page, label.serial);
            write!(text, " block {block} cell {cell}, serial {serial}")
        }
        PartCall::EraseSlot { block } => write!(text, " block {block}, slot {slot}"),
    }
}

/// What is left of a call.
fn left(leaves: Leaves) -> &'static str
    ensures { result.now ≡ left_text leaves }
{
    match leaves {
        Leaves::Blank => "nothing of it is done",
        Leaves::Torn => "it is torn",
        Leaves::Whole => "it is done",
    }
}

/// Adds in which slot and at which call the power goes.
fn put_slot(text: &mut Vec<u8>, die: u32, slot: u32, number: u64) -> io::Result<()>
    ensures { OnOk result (text.new.items ≡ text.old.items ++ slot_text die slot number) }
{
    write!(
        text,
        "die {die}: the power goes in slot {slot}, at call {number} of its device: "
    )
}

/// Adds the line of the call in which the power goes.
fn put_call(
    text: &mut Vec<u8>,
    die: u32,
    number: u64,
    begun: &Begun,
    call: PartCall,
    slot: u32,
    leaves: Leaves,
) -> io::Result<()>
    ensures { OnOk result (text.new.items
        ≡ text.old.items ++ call_line die number begun.now call slot leaves) }
{
    put_slot(text, die, begun.slot, number)?;
    put_runs(text, begun.runs)?;
    put_cell(text, call, slot)?;
    let left = left(leaves);
    write!(text, "; {left}")?;
    text.push(b'\n')?;
    Ok(())
}

/// Adds it of the slot that has begun, if one has.
fn put_cut_call(
    text: &mut Vec<u8>,
    die: u32,
    before: &CutDie,
    call: PartCall,
    slot: u32,
    leaves: Leaves,
) -> io::Result<()>
    requires { before.now.ended ≡ Some (Ended.Cut call) }
    ensures { OnOk result (text.new.items ≡ text.old.items
        ++ call_text die before.now.calls before.now.die.begun call slot leaves) }
{
    match before.die().begun() {
        Some(begun) => put_call(text, die, before.calls(), &begun, call, slot, leaves),
        None => Ok(()),
    }
}

/// Slots, in words.
fn unit(slots: u32) -> &'static str
    ensures { result.now ≡ unit_text slots }
{
    if slots == 1 { "slot" } else { "slots" }
}

/// Adds a block in erase.
fn put_in_erase(text: &mut Vec<u8>, own: InErase) -> io::Result<()>
    ensures { OnOk result (text.new.items ≡ text.old.items ++ in_erase_text own) }
{
    let (block, slots, unit) = (own.block, own.slots, unit(own.slots));
    write!(text, "block {block} after {slots} {unit}")
}

/// Adds the others, each after a comma.
fn put_more_in_erase(text: &mut Vec<u8>, rest: &[InErase]) -> io::Result<()>
    ensures { OnOk result (text.new.items ≡ text.old.items ++ flat_map (λ own.
        codes ", " ++ in_erase_text own) rest.now) }
{
    for own in rest {
        write!(text, ", ")?;
        put_in_erase(text, *own)?;
    }
    Ok(())
}

/// Adds the line of the blocks in erase.
fn put_erasing(text: &mut Vec<u8>, die: u32, erasing: &[InErase]) -> io::Result<()>
    ensures { OnOk result (text.new.items ≡ text.old.items ++ erasing_text die erasing.now) }
{
    match erasing.split_first() {
        None => write!(text, "die {die}: no block is in erase")?,
        Some((first, rest)) => {
            write!(text, "die {die}: in erase: ")?;
            put_in_erase(text, *first)?;
            put_more_in_erase(text, rest)?;
        }
    }
    text.push(b'\n')?;
    Ok(())
}

/// Adds the line of a block that is undone, if one is.
fn put_undone(text: &mut Vec<u8>, die: u32, undone: Option<u32>) -> io::Result<()>
    ensures { OnOk result (text.new.items ≡ text.old.items ++ undone_text die undone) }
{
    let Some(block) = undone else {
        return Ok(());
    };
    write!(text, "die {die}: the mount undoes block {block}")?;
    text.push(b'\n')?;
    Ok(())
}

/// Adds the calls of a mount.
fn put_calls(text: &mut Vec<u8>, costs: MountCosts) -> io::Result<()>
    ensures { OnOk result (text.new.items ≡ text.old.items ++ calls_text costs) }
{
    let (labels, copies) = (costs.labels, costs.copies);
    let (erases, erase_slots) = (costs.erases, costs.erase_slots);
    write!(
        text,
        "labels {labels}, copies {copies}, erases {erases}, erase slots {erase_slots}"
    )
}

/// Adds the line of what a mount cost.
fn put_costs(
    text: &mut Vec<u8>,
    die: u32,
    costs: MountCosts,
    most: u64,
    slot_us: Option<u32>,
) -> io::Result<()>
    ensures { OnOk result (text.new.items ≡ text.old.items ++ mount_line die costs most slot_us) }
{
    write!(text, "die {die}: mount: ")?;
    put_calls(text, costs)?;
    let took = Slots {
        count: costs.slots(),
        slot_us,
    };
    let most = Slots {
        count: most,
        slot_us,
    };
    write!(text, ", slots {took}, at most {most}")?;
    text.push(b'\n')?;
    Ok(())
}

/// Adds the line of what stands after it.
fn put_aside(text: &mut Vec<u8>, die: u32, aside: u32, next: u64) -> io::Result<()>
    ensures { OnOk result (text.new.items ≡ text.old.items ++ aside_line die aside next) }
{
    write!(
        text,
        "die {die}: then block {aside} stands aside, and the next serial is {next}"
    )?;
    text.push(b'\n')?;
    Ok(())
}

/// Adds the lines of a mount.
fn put_mount(text: &mut Vec<u8>, die: u32, end: &MountEnd, slot_us: Option<u32>) -> io::Result<()>
    ensures { OnOk result (text.new.items ≡ text.old.items ++ mount_text die end.now slot_us) }
{
    put_undone(text, die, end.undone)?;
    put_costs(text, die, end.costs, end.most, slot_us)?;
    put_aside(text, die, end.mounted.aside, end.mounted.next)
}

/// Adds what a page gives.
fn put_gives(text: &mut Vec<u8>, lost: Lost<'_>, said: PageSaid) -> io::Result<()>
    requires { lost.die.now.core.stopped ≡ false }
    ensures { OnOk result (text.new.items ≡ text.old.items ++ gives_text lost.entry.die.now
        lost.entry.earlier.now lost.entry.writes.now said said.gives) }
{
    let page = said.page;
    match said.gives {
        Gives::Blank => {
            if is_written(lost.earlier, page) || is_written(lost.writes, page) {
                write!(text, "blank, and trimmed")
            } else {
                write!(text, "blank, and never written")
            }
        }
        Gives::Last => {
            put_page(text, &said.bytes)?;
            write!(text, ", its last write")
        }
        Gives::InProgress => {
            put_page(text, &said.bytes)?;
            write!(text, ", the write in progress")
        }
        Gives::Earlier => {
            put_page(text, &said.bytes)?;
            write!(text, ", a write from before it was trimmed")
        }
        Gives::Wrong => {
            put_page(text, &said.bytes)?;
            write!(text, ", which is WRONG: it has to be ")?;
            put_page(text, &content_of(lost.die, page))
        }
    }
}

/// Adds the line of a page.
fn put_said(text: &mut Vec<u8>, die: u32, before: &CutDie, said: PageSaid) -> io::Result<()>
    requires { (before.now.ended ≡ Some Ended.Misread → ⊥) }
    ensures { OnOk result (text.new.items ≡ text.old.items ++ page_line die before.now said) }
{
    let page = said.page;
    write!(text, "die {die} page {page}: ")?;
    put_gives(text, before.lost(), said)?;
    text.push(b'\n')?;
    Ok(())
}

/// Adds the lines of pages.
fn put_pages(text: &mut Vec<u8>, die: u32, before: &CutDie, pages: &[PageSaid]) -> io::Result<()>
    requires { (before.now.ended ≡ Some Ended.Misread → ⊥) }
    ensures { OnOk result (text.new.items ≡ text.old.items ++ pages_text die before.now pages.now) }
{
    for said in pages {
        put_said(text, die, before, *said)?;
    }
    Ok(())
}

/// Adds what came of a cut, of which these blocks are in erase; where it is in an erase, its slot has this number.
fn put_cut(
    text: &mut Vec<u8>,
    die: u32,
    run: &CutRun,
    leaves: Leaves,
    slot_us: Option<u32>,
    slot: u32,
    erasing: &[InErase],
) -> io::Result<()>
    requires { run.now.before.ended ≡ Some (Ended.Cut run.now.call) }
    ensures { OnOk result (text.new.items
        ≡ text.old.items ++ cut_text die run.now leaves slot_us slot erasing.now) }
{
    put_cut_call(text, die, &run.before, run.call, slot, leaves)?;
    put_erasing(text, die, erasing)?;
    put_mount(text, die, &run.end, slot_us)?;
    put_pages(text, die, &run.before, run.pages.as_slice())
}

/// What came of a run whose power went: the call, the blocks in erase, what the mount did, and by logical page what it
/// gives. With the length of a slot the time that the mount takes stands in brackets. The only refusal is NoMemory.
#[tactic(auto, using(crate::proofs::Sentences::is_cut_text))]
pub fn cut_text(
    alloc: Global,
    die: u32,
    run: &CutRun,
    leaves: Leaves,
    slot_us: Option<u32>,
) -> Result<Vec<u8>, Refusal>
    requires cut { run.now.before.ended ≡ Some (Ended.Cut run.now.call) }
    ensures text { IfOk result (λ text. IsCutText die run.now leaves slot_us text.items) }
    ensures refused { FailsForMemory result }
{
    let part = run.before.part();
    let (slot, erasing) = (erase_slot(part, run.call), erasing_of(alloc, part)?);
    let mut text = Vec::new(alloc);
    match put_cut(&mut text, die, run, leaves, slot_us, slot, &erasing) {
        Ok(()) => Ok(text),
        Err(_) => Err(Refusal::NoMemory),
    }
}
