//! Checkpoints read from texts.

ghost use Rattle.std.specs.Prelude.{◌≡◌, false, true, IfErr, IfOk, IfSome, OnOk, [], option_map};
ghost use Rattle.csv.specs.Reading.{has_failed};
ghost use Rattle.csv.specs.Records.{fields_of};
ghost use Rattle.report_texts.specs.RecordsLeft.{Stays};
ghost use Rattle.text_base.specs.CsvRecords.{TakesRow};
ghost use Rattle.text_base.specs.CsvRecordsLeft.{KeepsFit, fits_left, rows_left};
ghost use Rattle.text_base.specs.Plain.{IsPlain};
ghost use Rattle.checkpoint_texts.specs.CheckpointOf.{checkpoint_from, checkpoint_of, dies_from, header_of};
ghost use Rattle.checkpoint_texts.specs.Gathering.{between};
ghost use Rattle.checkpoint_texts.specs.Readings.{FailsAtReadFault, IsOutside, Says};

use crate::fault::{RecordFault, TextFault};
use crate::gathered::{gather, no_dies, whole};
use crate::item_reading::check_count;
use crate::saved::SavedStore;
use csv::{ByteRecord, Reader};
use std::alloc::Global;
use std::io::Read;
use text_base::{Bounded, is_named, rows_up_to, take_row};

/// The most bytes that a checkpoint's text has.
const MAX_BYTES: usize = 134_217_728;

/// The most records that it has: the header, and for each of eight dies 262,144 pages, 1,024 blocks, 16 tasks and one
/// more.
const MAX_RECORDS: u32 = 2_105_481;

/// Takes the next record, if there is one.
fn next<R: Read>(rows: &mut Reader<Bounded<R>>, row: &mut ByteRecord) -> Result<bool, TextFault>
    requires { IsPlain rows.old }
    ensures takes { IfOk result (λ found.
        TakesRow (rows_left R.remaining rows.old) (rows_left R.remaining rows.new) found
        (fields_of row.new)) }
    ensures fits { IfOk result (λ found.
        KeepsFit (fits_left R.remaining rows.old) (fits_left R.remaining rows.new) found) }
    ensures plain { IfOk result (λ found. IsPlain rows.new) }
    ensures outside { IfErr result (λ e. IsOutside e) }
    ensures failed { FailsAtReadFault (has_failed rows.old) (has_failed rows.new) result }
{
    match take_row(rows, row) {
        Ok(found) => Ok(found),
        Err(refusal) => Err(TextFault::outside(refusal)),
    }
}

/// Whether a record is the header of a checkpoint, with a version that is read.
fn check_header(row: &ByteRecord) -> Result<(), TextFault>
    ensures { result ≡ header_of (fields_of row.now) }
{
    if !is_named(row, 0, "checkpoint") {
        return Err(TextFault::Broken {
            line: 1,
            field: 1,
            fault: RecordFault::Header,
        });
    }
    if !is_named(row, 1, "1") {
        return Err(TextFault::Broken {
            line: 1,
            field: 2,
            fault: RecordFault::Version,
        });
    }
    check_count(1, row, 2)
}

/// Takes the dies, after the header.
fn take_dies<R: Read>(
    alloc: Global,
    rows: &mut Reader<Bounded<R>>,
    row: &mut ByteRecord,
) -> Result<SavedStore, TextFault>
    requires { IsPlain rows.old }
    ensures store { Says (option_map (dies_from (between []) 2) (rows_left R.remaining rows.old))
        result }
    ensures fits { OnOk result (IfSome (fits_left R.remaining rows.old) (λ fits. fits ≡ true)) }
    ensures failed { FailsAtReadFault (has_failed rows.old) (has_failed rows.new) result }
{
    let mut gathered = no_dies(alloc);
    let mut line = 2;
    while line <= MAX_RECORDS {
        if !next(rows, row)? {
            return whole(gathered, line);
        }
        match gather(alloc, &mut gathered, row, line) {
            Ok(()) => {}
            Err(fault) => return Err(fault),
        }
        line += 1;
    }
    if next(rows, row)? {
        return Err(TextFault::Broken {
            line,
            field: 1,
            fault: RecordFault::TooMany,
        });
    }
    whole(gathered, line)
}

/// Takes the header and the dies.
fn take_store<R: Read>(
    alloc: Global,
    rows: &mut Reader<Bounded<R>>,
    row: &mut ByteRecord,
) -> Result<SavedStore, TextFault>
    requires { IsPlain rows.old }
    ensures store { Says (option_map checkpoint_from (rows_left R.remaining rows.old)) result }
    ensures fits { OnOk result (IfSome (fits_left R.remaining rows.old) (λ fits. fits ≡ true)) }
    ensures failed { FailsAtReadFault (has_failed rows.old) (has_failed rows.new) result }
{
    if !next(rows, row)? {
        return Err(TextFault::Broken {
            line: 1,
            field: 1,
            fault: RecordFault::Header,
        });
    }
    match check_header(row) {
        Ok(()) => {}
        Err(fault) => return Err(fault),
    }
    take_dies(alloc, rows, row)
}

/// Reads a checkpoint, csv with the defaults of the crate `csv` and without trimming, of at most 134,217,728 bytes, in
/// at most 134,217,729 calls of the reader.
///
/// Record 1 is `checkpoint,1`. Then come, die by die, a record for each logical page, `page` and its cell's block and
/// page and the bytes there in 32 hexadecimal digits, with these fields empty where it lies nowhere, or the last alone
/// where its bytes aren't kept; one for each block, `block`, how many of its pages are programmed and how often it was
/// erased; one for each task, `task` and its balance; and `die`, its number from 0 to 7 and its spare pages. Numbers
/// have 1 to 10 digits and are at most 4,294,967,295.
#[derive(Drop)]
pub struct CheckpointReader<R> {
    alloc: Global,
    rows: Reader<Bounded<R>>,
    row: ByteRecord,
}

impl<R: Read> CheckpointReader<R> {
    ghost use Rattle.text_base.specs.Marks.{is_within};
    ghost use Rattle.checkpoint_texts.specs.CheckpointLeft.{IsReady, checkpoint_fits, checkpoint_left, reader_failed};

    /// A reader of the checkpoint that a text has, which is read by [`checkpoint`](CheckpointReader::checkpoint), once.
    pub fn new(alloc: Global, reader: R) -> CheckpointReader<R>
        ensures checkpoint { checkpoint_left R.remaining result
            ≡ option_map checkpoint_of (R.remaining reader) }
        ensures bound { checkpoint_fits R.remaining result
            ≡ option_map (is_within 134217728) (R.remaining reader) }
        ensures ready { IsReady result }
        ensures fresh { reader_failed result ≡ false }
    {
        CheckpointReader {
            alloc,
            rows: rows_up_to(alloc, reader, MAX_BYTES),
            row: ByteRecord::new(alloc),
        }
    }

    /// Reads the checkpoint.
    ///
    /// Broken has the first record and field at fault. A record above 2,105,481 is one too many; else the kind is judged
    /// first, then how many fields there are, then they from left to right, then the order of records, and at last the
    /// number of a die. ReadFault comes where the reader fails or goes on beyond its bound, and only where csv's reader
    /// has failed; the records before it are judged first. NoMemory comes where memory is refused.
    ///
    /// What was read fits no plan as yet: [`check`](die_checkpoint::Checkpoint::check) says whether it does.
    pub fn checkpoint(&mut self) -> Result<SavedStore, TextFault>
        requires ready { IsReady self.old }
        ensures checkpoint { Says (checkpoint_left R.remaining self.old) result }
        ensures bound { OnOk result (IfSome (checkpoint_fits R.remaining self.old) (λ fits.
            fits ≡ true)) }
        ensures failed { FailsAtReadFault (reader_failed self.old) (reader_failed self.new) result }
    {
        take_store(self.alloc, &mut self.rows, &mut self.row)
    }
}
