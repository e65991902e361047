//! Checkpoints written as texts.

ghost use Rattle.std.specs.Prelude.{◌≡◌, ◌⊎◌, ◌++◌, ◌≤◌, IfErr, IfOk, OnOk, flat_map, length};
ghost use Rattle.std.specs.Io.KnownBytes.{Appends};
ghost use Rattle.csv.specs.Writing.{default_writer, row_text};
ghost use Rattle.slot_types.specs.Refusal.{FailsForMemory};
ghost use Rattle.report_texts.specs.ReportText.{records_text};
ghost use Rattle.text_base.specs.Flags.{KeepsFlag, SetsFlag};
ghost use Rattle.text_base.specs.Writing.{AppendsPart};
ghost use Rattle.checkpoint_texts.specs.CheckpointText.{block_record, checkpoint_text, die_records, page_record, task_record};

use crate::lines::{put_block, put_end, put_header, put_saved_page, put_task};
use crate::saved::{SavedDie, SavedPage, SavedStore};
use die_checkpoint::BlockCounts;
use slot_types::Refusal;
use std::alloc::Global;
use std::io;
use text_base::{Output, write_whole};

fn put_pages(text: &mut Vec<u8>, pages: &[SavedPage]) -> io::Result<()>
    ensures { OnOk result (text.new.items ≡ text.old.items ++ flat_map (λ page.
        row_text default_writer (page_record page)) pages.now) }
{
    for page in pages {
        put_saved_page(text, page)?;
    }
    Ok(())
}

fn put_blocks(text: &mut Vec<u8>, blocks: &[BlockCounts]) -> io::Result<()>
    ensures { OnOk result (text.new.items ≡ text.old.items ++ flat_map (λ block.
        row_text default_writer (block_record block)) blocks.now) }
{
    for block in blocks {
        put_block(text, block)?;
    }
    Ok(())
}

fn put_tasks(text: &mut Vec<u8>, balances: &[u32]) -> io::Result<()>
    ensures { OnOk result (text.new.items ≡ text.old.items ++ flat_map (λ balance.
        row_text default_writer (task_record balance)) balances.now) }
{
    for balance in balances {
        put_task(text, *balance)?;
    }
    Ok(())
}

/// Adds the records of the die of this number.
fn put_die(text: &mut Vec<u8>, number: u32, die: &SavedDie) -> io::Result<()>
    ensures { OnOk result (text.new.items
        ≡ text.old.items ++ records_text (die_records number die.now)) }
{
    put_pages(text, die.pages.as_slice())?;
    put_blocks(text, die.blocks.as_slice())?;
    put_tasks(text, die.balances.as_slice())?;
    put_end(text, number, die.spare)
}

/// Adds all records.
fn put_store(text: &mut Vec<u8>, store: &[SavedDie]) -> io::Result<()>
    requires { length store.now ≤ 8 }
    ensures { OnOk result (text.new.items ≡ text.old.items ++ checkpoint_text store.now) }
{
    put_header(text)?;
    for i in 0..store.len() {
        put_die(text, i as u32, &store[i])?;
    }
    Ok(())
}

fn text_of(alloc: Global, store: &SavedStore) -> Result<Vec<u8>, Refusal>
    requires { length store.now ≤ 8 }
    ensures text { IfOk result (λ text. text.items ≡ checkpoint_text store.now) }
    ensures refused { FailsForMemory result }
{
    let mut text = Vec::new(alloc);
    match put_store(&mut text, store.as_slice()) {
        Ok(()) => Ok(text),
        Err(_) => Err(Refusal::NoMemory),
    }
}

/// Writes the checkpoint of at most eight dies as csv, as [`CheckpointReader`](crate::CheckpointReader) reads it. Numbers
/// have no leading zeros, pages are 32 lower-case hexadecimal digits, each record ends with one line feed, no field is
/// quoted.
///
/// NoMemory comes before the first byte, and the writer is as it was. WriteFault comes exactly where the writer fails,
/// as [`write_whole`] says: a front of the text was then written that isn't the whole.
pub fn write_checkpoint<W: Output>(
    alloc: Global,
    writer: &mut W,
    store: &SavedStore,
) -> Result<(), Refusal>
    requires few { length store.now ≤ 8 }
    ensures written { OnOk result
        (Appends (W.contents writer.old) (W.contents writer.new) (checkpoint_text store.now)) }
    ensures works { OnOk result
        (KeepsFlag (W.has_failed writer.old) (W.has_failed writer.new)) }
    ensures memory { result ≡ Err Refusal.NoMemory → writer.new ≡ writer.old }
    ensures part { result ≡ Err Refusal.WriteFault
        → AppendsPart (W.contents writer.old) (W.contents writer.new) (checkpoint_text store.now) }
    ensures failed { result ≡ Err Refusal.WriteFault
        → SetsFlag (W.has_failed writer.old) (W.has_failed writer.new) }
    ensures refused { IfErr result (λ refusal.
        (refusal ≡ Refusal.NoMemory) ⊎ (refusal ≡ Refusal.WriteFault)) }
{
    let text = text_of(alloc, store)?;
    write_whole(writer, &text)
}
