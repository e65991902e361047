//! The records of a text, by csv's defaults.

ghost use Rattle.std.specs.Prelude.{◌≡◌, ◌<◌, ◌^◌, false, true, All, IfOk, IfErr, OnErr, OnOk, option_map};
ghost use Rattle.csv.specs.Reading.{error_kind, has_failed, is_io};
ghost use Rattle.csv.specs.Records.{fields_of, field_at};
ghost use Rattle.text_base.specs.Fields.{has_text};
ghost use Rattle.text_base.specs.Fields.{field_or};
ghost use Rattle.text_base.specs.Plain.{IsPlain};
ghost use Rattle.text_base.specs.Readings.{IsOutside};
ghost use Rattle.text_base.specs.Marks.{is_within};
ghost use Rattle.text_base.specs.CsvRecords.{TakesRow, rows_of};
ghost use Rattle.text_base.specs.CsvRecordsLeft.{KeepsFit, fits_left, rows_left};

use crate::bounded::Bounded;
use csv::{ByteRecord, ErrorKind, Reader, ReaderBuilder};
use slot_types::Refusal;
use std::alloc::Global;
use std::io::Read;

/// A reader of all records within the bound, of any length, the first among them.
pub fn rows_in<R: Read>(alloc: Global, reader: R) -> Reader<Bounded<R>>
    ensures plain { IsPlain result }
    ensures fresh { has_failed result ≡ false }
    ensures rows { rows_left R.remaining result ≡ option_map rows_of (R.remaining reader) }
    ensures fits { fits_left R.remaining result
        ≡ option_map (is_within 67108864) (R.remaining reader) }
{
    ReaderBuilder::new()
        .has_headers(false)
        .flexible(true)
        .from_reader(alloc, Bounded::new(reader))
}

/// A reader of all records, as [`rows_in`] makes one, within a bound of `most` bytes.
pub fn rows_up_to<R: Read>(alloc: Global, reader: R, most: usize) -> Reader<Bounded<R>>
    requires { most < 2 ^ 32 }
    ensures plain { IsPlain result }
    ensures fresh { has_failed result ≡ false }
    ensures rows { rows_left R.remaining result ≡ option_map rows_of (R.remaining reader) }
    ensures fits { fits_left R.remaining result ≡ option_map (is_within most) (R.remaining reader) }
{
    ReaderBuilder::new()
        .has_headers(false)
        .flexible(true)
        .from_reader(alloc, Bounded::up_to(reader, most))
}

/// What a failing read is reported as. An error of the reader's own is ReadFault, whatever it says of itself; NoMemory
/// is csv's own lack of memory for a record.
fn fault(error: &csv::Error) -> Refusal
    ensures outside { IsOutside result }
    ensures own { is_io (error_kind error.now) ≡ true → result ≡ Refusal.ReadFault }
{
    match error.kind() {
        ErrorKind::OutOfMemory => Refusal::NoMemory,
        _ => Refusal::ReadFault,
    }
}

/// Does nothing, but shows to a proof that a slice of bytes has nothing but bytes: the mark after a text is none.
fn check_bytes(text: &[u8])
    ensures { All (λ b. b < 256) text.now }
{}

/// Takes the next record, if there is one. A refusal comes exactly where csv's reader fails, which it knows from then on:
/// ReadFault where the reader below failed or went on past the bound, and NoMemory where csv lacked memory.
pub fn take_row<R: Read>(
    rows: &mut Reader<Bounded<R>>,
    row: &mut ByteRecord,
) -> Result<bool, Refusal>
    requires { IsPlain rows.old }
    ensures takes { IfOk result (λ found.
        TakesRow (rows_left R.remaining rows.old) (rows_left R.remaining rows.new) found
        (fields_of row.new)) }
    ensures fits { IfOk result (λ found.
        KeepsFit (fits_left R.remaining rows.old) (fits_left R.remaining rows.new) found) }
    ensures plain { IfOk result (λ found. IsPlain rows.new) }
    ensures outside { IfErr result (λ e. IsOutside e) }
    ensures goes { OnOk result (has_failed rows.new ≡ has_failed rows.old) }
    ensures failed { OnErr result (has_failed rows.new ≡ true) }
{
    match rows.read_byte_record(row) {
        Ok(found) => {
            check_bytes(row.as_slice());
            Ok(found)
        }
        Err(e) => Err(fault(&e)),
    }
}

/// A field of a record; nothing where there is none.
pub fn field_in(row: &ByteRecord, place: usize) -> &[u8]
    ensures { result.now ≡ field_or (fields_of row.now) place }
{
    match row.get(place) {
        Some(field) => field,
        None => b"".as_slice(),
    }
}

/// Whether a field of a record is this text.
pub fn is_named(row: &ByteRecord, place: usize, name: &str) -> bool
    ensures { result ≡ has_text (field_at (fields_of row.now) place) name.now }
{
    match row.get(place) {
        Some(field) => field == name.as_bytes(),
        None => false,
    }
}
