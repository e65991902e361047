//! What dies wore, as a text.

ghost use Rattle.std.specs.Prelude.{◌≡◌, ◌++◌, IfOk, OnOk};
ghost use Rattle.slot_types.specs.Refusal.{FailsForMemory};
ghost use Rattle.flashplan_watched_runs.specs.WearText.{amplification, block_record, block_records, die_counts, die_record, header, records_of};
ghost use Rattle.flashplan_watched_runs.specs.WearText.{wear_text};

use crate::tallies::Tally;
use slot_types::Refusal;
use std::alloc::Global;
use std::io;
use std::io::Write;

/// Adds the write amplification: the pages that were programmed for each page that was written, to the thousandth below.
/// Where nothing was written there is none.
fn put_amplification(text: &mut Vec<u8>, written: u32, copied: u32) -> io::Result<()>
    ensures { OnOk result (text.new.items ≡ text.old.items ++ amplification written copied) }
{
    if written == 0 {
        return Ok(());
    }
    let programmed = u64::from(written) + u64::from(copied);
    let thousandths = programmed * 1000 / u64::from(written);
    let whole = thousandths / 1000;
    let tenths = thousandths / 100 % 10;
    let hundredths = thousandths / 10 % 10;
    let rest = thousandths % 10;
    write!(text, "{whole}.{tenths}{hundredths}{rest}")
}

/// Adds the counts of a die's record.
fn put_counts(text: &mut Vec<u8>, die: usize, tally: &Tally) -> io::Result<()>
    ensures { OnOk result (text.new.items
        ≡ text.old.items ++ die_counts die tally.now.erased tally.now.written tally.now.copied) }
{
    let (erased, written, copied) = (tally.erased, tally.written, tally.copied);
    write!(text, "die,{die},,{erased},{written},{copied},")
}

/// Adds the record of a die.
fn put_die(text: &mut Vec<u8>, die: usize, tally: &Tally) -> io::Result<()>
    ensures { OnOk result (text.new.items ≡ text.old.items ++ die_record die tally.now) }
{
    put_counts(text, die, tally)?;
    put_amplification(text, tally.written, tally.copied)?;
    text.push(b'\n')?;
    Ok(())
}

/// Adds the record of a block.
fn put_block(text: &mut Vec<u8>, die: usize, block: usize, erases: u32) -> io::Result<()>
    ensures { OnOk result (text.new.items ≡ text.old.items ++ block_record die block erases) }
{
    write!(text, "block,{die},{block},{erases},,,")?;
    text.push(b'\n')?;
    Ok(())
}

/// Adds the records of a die's blocks, numbered from 0.
fn put_blocks(text: &mut Vec<u8>, die: usize, erases: &[u32]) -> io::Result<()>
    ensures { OnOk result (text.new.items ≡ text.old.items ++ block_records die erases.now) }
{
    for block in 0..erases.len() {
        put_block(text, die, block, erases[block])?;
    }
    Ok(())
}

/// Adds the records of a die and of its blocks.
fn put_wear(text: &mut Vec<u8>, die: usize, tally: &Tally) -> io::Result<()>
    ensures { OnOk result (text.new.items ≡ text.old.items ++ records_of die tally.now) }
{
    put_die(text, die, tally)?;
    put_blocks(text, die, &tally.erases)
}

/// Adds the header, and the records of dies, numbered from 0.
fn put_wears(text: &mut Vec<u8>, dies: &[Tally]) -> io::Result<()>
    ensures { OnOk result (text.new.items ≡ text.old.items ++ wear_text dies.now) }
{
    write!(text, "row,die,block,erases,written,copied,amplification")?;
    text.push(b'\n')?;
    for die in 0..dies.len() {
        put_wear(text, die, &dies[die])?;
    }
    Ok(())
}

/// What dies wore, as a text of records: of each die, by number, a record of its own and one of each of its blocks. The
/// only refusal is NoMemory.
pub fn wear_text(alloc: Global, dies: &[Tally]) -> Result<Vec<u8>, Refusal>
    ensures text { IfOk result (λ text. text.items ≡ wear_text dies.now) }
    ensures refused { FailsForMemory result }
{
    let mut text = Vec::new(alloc);
    match put_wears(&mut text, dies) {
        Ok(()) => Ok(text),
        Err(_) => Err(Refusal::NoMemory),
    }
}
