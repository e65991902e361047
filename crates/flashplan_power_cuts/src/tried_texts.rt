//! What came of cuts at each call of a run, in sentences.

ghost use Rattle.std.specs.Prelude.{◌≡◌, ◌++◌, IfOk, OnOk, Some};
ghost use Rattle.slot_types.specs.Refusal.{FailsForMemory};
ghost use Rattle.flashplan_power_cuts.specs.TriedTexts.{amiss_text, cuts_line, gave_line, leaves_word, most_line, mount_call_text, tally_text, tried_text, wrong_at, wrong_text};

use crate::runs::TriedRun;
use crate::trials::{Amiss, Tally, WrongCut};
use flashplan_labelled_parts::Leaves;
use flashplan_slot_times::Slots;
use slot_types::Refusal;
use std::alloc::Global;
use std::io;
use std::io::Write;
use text_base::put_page;

/// Adds how many cuts were tried.
fn put_cuts(text: &mut Vec<u8>, die: u32, tally: Tally) -> io::Result<()>
    ensures { OnOk result (text.new.items ≡ text.old.items ++ cuts_line die tally) }
{
    let (calls, cuts, mount_cuts) = (tally.calls, tally.cuts, tally.mount_cuts);
    let undone = tally.undone;
    write!(
        text,
        "die {die}: calls {calls}, cuts {cuts}, cuts of mounts {mount_cuts}, blocks undone {undone}"
    )?;
    text.push(b'\n')?;
    Ok(())
}

/// Adds what pages gave.
fn put_gave(text: &mut Vec<u8>, die: u32, tally: Tally) -> io::Result<()>
    ensures { OnOk result (text.new.items ≡ text.old.items ++ gave_line die tally) }
{
    let (last, in_progress) = (tally.last, tally.in_progress);
    let (blank, earlier) = (tally.blank, tally.earlier);
    write!(
        text,
        "die {die}: pages: last write {last}, in progress {in_progress}, blank {blank}, trimmed {earlier}"
    )?;
    text.push(b'\n')?;
    Ok(())
}

/// Adds the most that a mount did.
fn put_most(text: &mut Vec<u8>, die: u32, tally: Tally, slot_us: Option<u32>) -> io::Result<()>
    ensures { OnOk result (text.new.items ≡ text.old.items ++ most_line die tally slot_us) }
{
    let (copies, erases) = (tally.most.copies, tally.most.erases);
    let slots = Slots {
        count: tally.most_slots,
        slot_us,
    };
    write!(
        text,
        "die {die}: at most of a mount: copies {copies}, erases {erases}, slots {slots}"
    )?;
    text.push(b'\n')?;
    Ok(())
}

/// Adds what came of all cuts.
fn put_tally(text: &mut Vec<u8>, die: u32, tally: Tally, slot_us: Option<u32>) -> io::Result<()>
    ensures { OnOk result (text.new.items ≡ text.old.items ++ tally_text die tally slot_us) }
{
    put_cuts(text, die, tally)?;
    put_gave(text, die, tally)?;
    put_most(text, die, tally, slot_us)
}

/// The word for what is left of a call.
fn word(leaves: Leaves) -> &'static str
    ensures { result.now ≡ leaves_word leaves }
{
    match leaves {
        Leaves::Blank => "blank",
        Leaves::Torn => "torn",
        Leaves::Whole => "whole",
    }
}

/// Adds at which call of the mount the power went once more, if it did.
fn put_mount_call(text: &mut Vec<u8>, mount_call: Option<u64>) -> io::Result<()>
    ensures { OnOk result (text.new.items ≡ text.old.items ++ mount_call_text mount_call) }
{
    match mount_call {
        Some(call) => write!(text, ", and at call {call} of the mount"),
        None => Ok(()),
    }
}

/// Adds what was wrong.
fn put_amiss(text: &mut Vec<u8>, amiss: Amiss) -> io::Result<()>
    ensures { OnOk result (text.new.items ≡ text.old.items ++ amiss_text amiss) }
{
    match amiss {
        Amiss::Page(said) => {
            let page = said.page;
            write!(text, ": page {page} gives ")?;
            put_page(text, &said.bytes)
        }
        Amiss::Unmounted(unmounted) => write!(text, ": {unmounted}"),
    }
}

/// Adds at which call the power went in a wrong cut, and what that leaves.
fn put_wrong_at(text: &mut Vec<u8>, die: u32, call: u64, leaves: &'static str) -> io::Result<()>
    ensures { OnOk result (text.new.items ≡ text.old.items ++ wrong_at die call leaves.now) }
{
    write!(
        text,
        "die {die}: WRONG at call {call}, which leaves {leaves}"
    )
}

/// Adds the first cut that was wrong.
fn put_wrong_cut(text: &mut Vec<u8>, die: u32, wrong: WrongCut) -> io::Result<()>
    ensures { OnOk result (text.new.items ≡ text.old.items ++ wrong_text die (Some wrong)) }
{
    let leaves = word(wrong.leaves);
    put_wrong_at(text, die, wrong.call, leaves)?;
    put_mount_call(text, wrong.mount_call)?;
    put_amiss(text, wrong.amiss)?;
    text.push(b'\n')?;
    Ok(())
}

/// Adds the first cut that was wrong, or that none was.
fn put_wrong(text: &mut Vec<u8>, die: u32, wrong: Option<WrongCut>) -> io::Result<()>
    ensures { OnOk result (text.new.items ≡ text.old.items ++ wrong_text die wrong) }
{
    let Some(wrong) = wrong else {
        write!(text, "die {die}: none was wrong")?;
        text.push(b'\n')?;
        return Ok(());
    };
    put_wrong_cut(text, die, wrong)
}

/// Adds what came of cuts at each call of a run.
fn put_tried(text: &mut Vec<u8>, die: u32, run: TriedRun, slot_us: Option<u32>) -> io::Result<()>
    ensures { OnOk result (text.new.items ≡ text.old.items ++ tried_text die run slot_us) }
{
    put_tally(text, die, run.tally, slot_us)?;
    put_wrong(text, die, run.wrong)
}

/// What came of cuts at each call of a run, and the first that was wrong; or that none was. With the length of a slot the
/// time that a mount takes stands in brackets. The only refusal is NoMemory.
pub fn tried_text(
    alloc: Global,
    die: u32,
    run: TriedRun,
    slot_us: Option<u32>,
) -> Result<Vec<u8>, Refusal>
    ensures text { IfOk result (λ text. text.items ≡ tried_text die run slot_us) }
    ensures refused { FailsForMemory result }
{
    let mut text = Vec::new(alloc);
    match put_tried(&mut text, die, run, slot_us) {
        Ok(()) => Ok(text),
        Err(_) => Err(Refusal::NoMemory),
    }
}
