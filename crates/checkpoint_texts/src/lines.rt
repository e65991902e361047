//! The lines of a checkpoint. A line is what csv writes with its defaults: no field needs quotes.

ghost use Rattle.std.specs.Prelude.{◌≡◌, ◌++◌, ◌∷◌, codes, decimal, OnOk};
ghost use Rattle.csv.specs.Writing.{default_writer, row_text};
ghost use Rattle.report_texts.specs.Commas.{after_commas};
ghost use Rattle.checkpoint_texts.specs.CheckpointText.{block_record, bytes_field, end_record, header_record, page_record, place_fields};
ghost use Rattle.checkpoint_texts.specs.CheckpointText.{task_record};

use crate::saved::SavedPage;
use die_checkpoint::BlockCounts;
use itoa::Buffer;
use slot_types::{PageData, Place};
use std::io;
use text_base::put_page;

/// Adds a comma and a number.
fn put_number(text: &mut Vec<u8>, number: u32) -> io::Result<()>
    ensures { OnOk result (text.new.items ≡ text.old.items ++ (44 ∷ decimal number)) }
{
    let mut buffer = Buffer::new();
    text.push(b',')?;
    text.extend_from_slice(buffer.format(number).as_bytes())?;
    Ok(())
}

/// Adds the record of the header.
#[tactic(auto, unfolding(csv::specs::Writing::fields_text, csv::specs::Writing::is_blank))]
pub fn put_header(text: &mut Vec<u8>) -> io::Result<()>
    ensures { OnOk result (text.new.items
        ≡ text.old.items ++ row_text default_writer header_record) }
{
    text.extend_from_slice(b"checkpoint,1\n")?;
    Ok(())
}

/// Adds the two fields of a cell, each after a comma.
fn put_place(text: &mut Vec<u8>, place: Option<Place>) -> io::Result<()>
    ensures { OnOk result (text.new.items ≡ text.old.items ++ after_commas (place_fields place)) }
{
    match place {
        Some(place) => {
            put_number(text, place.block)?;
            put_number(text, place.page)?;
        }
        None => text.extend_from_slice(b",,")?,
    }
    Ok(())
}

/// Adds a comma and the bytes of a page, where they are kept.
fn put_bytes(text: &mut Vec<u8>, bytes: Option<PageData>) -> io::Result<()>
    ensures { OnOk result (text.new.items ≡ text.old.items ++ (44 ∷ bytes_field bytes)) }
{
    text.push(b',')?;
    if let Some(bytes) = bytes {
        put_page(text, &bytes)?;
    }
    Ok(())
}

/// Adds the record of a page.
pub fn put_saved_page(text: &mut Vec<u8>, page: &SavedPage) -> io::Result<()>
    ensures { OnOk result (text.new.items
        ≡ text.old.items ++ row_text default_writer (page_record page.now)) }
{
    text.extend_from_slice(b"page")?;
    put_place(text, page.place)?;
    put_bytes(text, page.bytes)?;
    text.push(b'\n')?;
    Ok(())
}

/// Adds the record of a block.
pub fn put_block(text: &mut Vec<u8>, block: &BlockCounts) -> io::Result<()>
    ensures { OnOk result (text.new.items
        ≡ text.old.items ++ row_text default_writer (block_record block.now)) }
{
    text.extend_from_slice(b"block")?;
    put_number(text, block.filled)?;
    put_number(text, block.erases)?;
    text.push(b'\n')?;
    Ok(())
}

/// Adds the record of a task's balance.
pub fn put_task(text: &mut Vec<u8>, balance: u32) -> io::Result<()>
    ensures { OnOk result (text.new.items
        ≡ text.old.items ++ row_text default_writer (task_record balance)) }
{
    text.extend_from_slice(b"task")?;
    put_number(text, balance)?;
    text.push(b'\n')?;
    Ok(())
}

/// Adds the record that ends a die.
pub fn put_end(text: &mut Vec<u8>, number: u32, spare: u32) -> io::Result<()>
    ensures { OnOk result (text.new.items
        ≡ text.old.items ++ row_text default_writer (end_record number spare)) }
{
    text.extend_from_slice(b"die")?;
    put_number(text, number)?;
    put_number(text, spare)?;
    text.push(b'\n')?;
    Ok(())
}
