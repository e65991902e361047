//! One record of a checkpoint.

ghost use Rattle.std.specs.Prelude.{◌≡◌, ◌≤◌};
ghost use Rattle.csv.specs.Records.{fields_of};
ghost use Rattle.checkpoint_texts.specs.Records.{block_item, bytes_at, check_count, die_item, is_empty, item_of, number_at, page_item, place_at};
ghost use Rattle.checkpoint_texts.specs.Records.{task_item};

use crate::fault::{RecordFault, TextFault};
use crate::items::Item;
use crate::saved::SavedPage;
use csv::ByteRecord;
use die_checkpoint::BlockCounts;
use slot_types::{PageData, Place};
use text_base::{field_in, is_named, number, page};

/// The number in the field after `place` others.
fn number_in(line: u32, fields: &ByteRecord, place: usize) -> Result<u32, TextFault>
    requires { place ≤ 3 }
    ensures { result ≡ number_at line (fields_of fields.now) place }
{
    let fault = TextFault::Broken {
        line,
        field: place as u32 + 1,
        fault: RecordFault::Number,
    };
    match fields.get(place) {
        Some(field) => number(field).ok_or(fault),
        None => Err(fault),
    }
}

/// Whether a field is empty, or isn't there.
fn is_empty(fields: &ByteRecord, place: usize) -> bool
    ensures { result ≡ is_empty (fields_of fields.now) place }
{
    field_in(fields, place).is_empty()
}

/// The cell in which a page lies, if it lies in one.
fn place_in(line: u32, fields: &ByteRecord) -> Result<Option<Place>, TextFault>
    ensures { result ≡ place_at line (fields_of fields.now) }
{
    if is_empty(fields, 1) && is_empty(fields, 2) {
        return Ok(None);
    }
    let block = number_in(line, fields, 1)?;
    let page = number_in(line, fields, 2)?;
    Ok(Some(Place { block, page }))
}

/// The bytes of a page, where they are kept.
fn bytes_in(
    line: u32,
    fields: &ByteRecord,
    place: Option<Place>,
) -> Result<Option<PageData>, TextFault>
    ensures { result ≡ bytes_at line (fields_of fields.now) place }
{
    let digits = field_in(fields, 3);
    if digits.is_empty() {
        return Ok(None);
    }
    let fault = TextFault::Broken {
        line,
        field: 4,
        fault: RecordFault::Bytes,
    };
    if place.is_none() {
        return Err(fault);
    }
    match page(digits) {
        Some(bytes) => Ok(Some(bytes)),
        None => Err(fault),
    }
}

/// Refuses a record that doesn't have `count` fields.
pub fn check_count(line: u32, fields: &ByteRecord, count: usize) -> Result<(), TextFault>
    requires { count ≤ 4 }
    ensures { result ≡ check_count line (fields_of fields.now) count }
{
    if fields.len() == count {
        return Ok(());
    }
    Err(TextFault::Broken {
        line,
        field: fields.len().min(count) as u32 + 1,
        fault: RecordFault::Fields,
    })
}

fn page_in(line: u32, fields: &ByteRecord) -> Result<Item, TextFault>
    ensures { result ≡ page_item line (fields_of fields.now) }
{
    check_count(line, fields, 4)?;
    let place = place_in(line, fields)?;
    let bytes = bytes_in(line, fields, place)?;
    Ok(Item::Page(SavedPage { place, bytes }))
}

fn block_in(line: u32, fields: &ByteRecord) -> Result<Item, TextFault>
    ensures { result ≡ block_item line (fields_of fields.now) }
{
    check_count(line, fields, 3)?;
    let filled = number_in(line, fields, 1)?;
    let erases = number_in(line, fields, 2)?;
    Ok(Item::Block(BlockCounts { filled, erases }))
}

fn task_in(line: u32, fields: &ByteRecord) -> Result<Item, TextFault>
    ensures { result ≡ task_item line (fields_of fields.now) }
{
    check_count(line, fields, 2)?;
    let balance = number_in(line, fields, 1)?;
    Ok(Item::Task(balance))
}

fn die_in(line: u32, fields: &ByteRecord) -> Result<Item, TextFault>
    ensures { result ≡ die_item line (fields_of fields.now) }
{
    check_count(line, fields, 3)?;
    let number = number_in(line, fields, 1)?;
    let spare = number_in(line, fields, 2)?;
    Ok(Item::Die { number, spare })
}

/// What the record of this number says, or its first fault.
#[tactic(auto, unfolding(crate::specs::Records::item_of))]
pub fn item_in(line: u32, fields: &ByteRecord) -> Result<Item, TextFault>
    ensures { result ≡ item_of line (fields_of fields.now) }
{
    if is_named(fields, 0, "page") {
        page_in(line, fields)
    } else if is_named(fields, 0, "block") {
        block_in(line, fields)
    } else if is_named(fields, 0, "task") {
        task_in(line, fields)
    } else if is_named(fields, 0, "die") {
        die_in(line, fields)
    } else {
        Err(TextFault::Broken {
            line,
            field: 1,
            fault: RecordFault::Kind,
        })
    }
}
