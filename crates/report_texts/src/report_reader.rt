//! The reader of a report: its records, with the one at hand.

ghost use Rattle.std.specs.Prelude.{◌≡◌, ◌+◌, ◌<◌, false, IfErr, OnOk, option_map, true};
ghost use Rattle.csv.specs.Records.{fields_of};
ghost use Rattle.text_base.specs.Readings.{FailsAtReadFault, IsOutside};
ghost use Rattle.report_texts.specs.RecordsLeft.{IsReady, Loses, Stays, at_hand, is_found, record_line, records_fit, records_left};
ghost use Rattle.report_texts.specs.RecordsLeft.{reader_failed, records_unread, row_at_hand, unread_fit};
ghost use Rattle.text_base.specs.Marks.{is_within};

use crate::report_certs::begins_cert;
use csv::{ByteRecord, Reader};
use slot_types::Refusal;
use std::alloc::Global;
use std::io::Read;
use text_base::{Bounded, rows_in, take_row};

/// Reads a report, csv as `ScriptReader` reads it, within the same bound.
///
/// Record 1 is the header, and each record has 11 fields. The rows of jobs and collections stand in rising order of
/// die, from 0 to 7, and on each die their numbers are 0, 1, 2, .. up to at most 65,535; tasks are from 0 to 15. A
/// deadline is above its release and at most 1,048,576. A done row has a completion of at most 1,048,576, a lateness
/// that is its completion less its deadline, and at least one slot of work; a job's has what its reads gave, at most 64
/// pages, a collection's what it gave its task. A waiting row has none of these, and a row of a waived collection only
/// what it gave, and no work. After all rows each die that has a done one has a certificate, by die, with the number,
/// deadline, completion and lateness of its worst job; its start and the jobs that it lists may be anything of the
/// right shape.
#[derive(Drop)]
pub struct ReportReader<R> {
    alloc: Global,
    rows: Reader<Bounded<R>>,
    fields: ByteRecord,
    /// Whether `fields` is a record of the text.
    found: bool,
    line: u32,
}

impl<R: Read> ReportReader<R> {
    ghost use Rattle.report_texts.specs.ReportLeft.{report_left};
    ghost use Rattle.report_texts.specs.ReportOf.{report_of};

    /// A reader of the report that a text has, which is read by [`report`](ReportReader::report) or
    /// [`work`](ReportReader::work), once.
    pub fn new(alloc: Global, reader: R) -> ReportReader<R>
        ensures report { report_left R.remaining result
            ≡ option_map report_of (R.remaining reader) }
        ensures bound { unread_fit R.remaining result
            ≡ option_map (is_within 67108864) (R.remaining reader) }
        ensures ready { IsReady result }
        ensures fresh { reader_failed result ≡ false }
    {
        ReportReader {
            alloc,
            rows: rows_in(alloc, reader),
            fields: ByteRecord::new(alloc),
            found: false,
            line: 1,
        }
    }

    /// Where what is read is kept.
    pub(crate) fn alloc(&self) -> Global {
        self.alloc
    }

    /// The number of the record at hand, or the number that it would have.
    pub(crate) fn line(&self) -> u32
        ensures { result ≡ record_line self.now }
    {
        self.line
    }

    /// Whether there is a record at hand.
    pub(crate) fn has_one(&self) -> bool
        ensures { result ≡ is_found self.now }
    {
        self.found
    }

    /// The fields of the record at hand.
    pub(crate) fn get(&self) -> Option<&ByteRecord>
        ensures { option_map (λ fields. fields_of fields.now) result ≡ at_hand self.now }
    {
        if self.found { Some(&self.fields) } else { None }
    }

    /// The fields of the record at hand, if it isn't of a certificate.
    pub(crate) fn get_row(&self) -> Option<&ByteRecord>
        ensures { option_map (λ fields. fields_of fields.now) result ≡ row_at_hand self.now }
    {
        let fields = self.get()?;
        if begins_cert(fields) {
            return None;
        }
        Some(fields)
    }

    /// Takes the first record.
    pub(crate) fn begin(&mut self) -> Result<(), Refusal>
        requires { IsReady self.old }
        ensures first { OnOk result
            (Stays (records_unread R.remaining self.old) (records_left R.remaining self.new)) }
        ensures fits { OnOk result
            (Stays (unread_fit R.remaining self.old) (records_fit R.remaining self.new)) }
        ensures ready { OnOk result (IsReady self.new) }
        ensures line { record_line self.new ≡ 1 }
        ensures refused { IfErr result (λ e. IsOutside e) }
        ensures failed { FailsAtReadFault (reader_failed self.old) (reader_failed self.new) result }
    {
        self.line = 1;
        self.found = take_row(&mut self.rows, &mut self.fields)?;
        Ok(())
    }

    /// Goes on to the next record.
    pub(crate) fn advance(&mut self) -> Result<(), Refusal>
        requires ready { IsReady self.old }
        requires found { is_found self.old ≡ true }
        requires line { record_line self.old < 4294967295 }
        ensures next { OnOk result
            (Loses (records_left R.remaining self.old) (records_left R.remaining self.new)) }
        ensures fits { OnOk result
            (Stays (records_fit R.remaining self.old) (records_fit R.remaining self.new)) }
        ensures ready { OnOk result (IsReady self.new) }
        ensures line { OnOk result (record_line self.new ≡ record_line self.old + 1) }
        ensures refused { IfErr result (λ e. IsOutside e) }
        ensures failed { FailsAtReadFault (reader_failed self.old) (reader_failed self.new) result }
    {
        self.found = take_row(&mut self.rows, &mut self.fields)?;
        self.line += 1;
        Ok(())
    }
}
