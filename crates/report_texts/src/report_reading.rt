//! Reports read from texts, whole or for their work alone.

ghost use Rattle.std.specs.Prelude.{◌≡◌, ◌≤◌, ◌<◌, ◌+◌, List, map, true, IfOk, IfSome, OnOk, length, option_map};
ghost use Rattle.csv.specs.Records.{fields_of};
ghost use Rattle.text_base.specs.Marks.{is_within};
ghost use Rattle.text_base.specs.Readings.{FailsAtReadFault};
ghost use Rattle.report_texts.specs.KeptDies.{ReadsCert, ReadsKept, SaysKept};
ghost use Rattle.report_texts.specs.Numbering.{AreNumbered};
ghost use Rattle.report_texts.specs.RecordsLeft.{IsReady, Stays, reader_failed, record_line, records_fit, records_left};
ghost use Rattle.report_texts.specs.RecordsLeft.{unread_fit};
ghost use Rattle.report_texts.specs.ReportHeader.{is_report_header};
ghost use Rattle.report_texts.specs.ReportLeft.{report_left};
ghost use Rattle.report_texts.specs.ReportOf.{Reads, Says, certs_from, no_rows, report_from, report_of, rows_from};
ghost use Rattle.report_texts.specs.ReportWork.{AllRise, SaysWork};
ghost use Rattle.report_texts.specs.declared.reports.DieReport.{DieReport};

use crate::gathered::{dies_in, gather, no_rows};
use crate::kept_dies::KeptDie;
use crate::report_certs::cert;
use crate::report_reader::ReportReader;
use crate::report_work::ReportWork;
use crate::reports::Report;
use csv::ByteRecord;
use slot_types::{Items, Refusal};
use std::alloc::Global;
use std::io::Read;
use text_base::is_named;

/// Whether a record is the header of a report.
fn heads_report(row: &ByteRecord) -> bool
    ensures { result ≡ is_report_header (fields_of row.now) }
{
    row.len() == 11
        && is_named(row, 0, "row")
        && is_named(row, 1, "die")
        && is_named(row, 2, "job")
        && is_named(row, 3, "task")
        && is_named(row, 4, "release")
        && is_named(row, 5, "due")
        && is_named(row, 6, "work")
        && is_named(row, 7, "completion")
        && is_named(row, 8, "lateness")
        && is_named(row, 9, "given")
        && is_named(row, 10, "items")
}

/// Takes the header.
fn take_header<R: Read>(records: &mut ReportReader<R>) -> Result<(), Refusal>
    requires ready { IsReady records.old }
    requires first { record_line records.old ≡ 1 }
    ensures read { Reads report_from (λ _.
        rows_from no_rows (record_line records.new)) (records_left R.remaining records.old)
        (records_left R.remaining records.new) result }
    ensures fits { OnOk result
        (Stays (records_fit R.remaining records.old) (records_fit R.remaining records.new)) }
    ensures ready { OnOk result (IsReady records.new) }
    ensures second { OnOk result (record_line records.new ≡ 2) }
    ensures failed { FailsAtReadFault (reader_failed records.old) (reader_failed records.new)
        result }
{
    let Some(fields) = records.get() else {
        return Err(Refusal::ReportText { line: 1 });
    };
    if !heads_report(fields) {
        return Err(Refusal::ReportText { line: 1 });
    }
    records.advance()
}

/// Takes the rows of all dies.
fn take_rows<R: Read, K: KeptDie>(
    alloc: Global,
    records: &mut ReportReader<R>,
) -> Result<Items<K>, Refusal>
    requires ready { IsReady records.old }
    requires second { record_line records.old ≡ 2 }
    ensures read { ReadsKept K.kept_of (rows_from no_rows (record_line records.old)) (λ dies.
        certs_from dies (record_line records.new))
        (records_left R.remaining records.old) (records_left R.remaining records.new) result }
    ensures fits { OnOk result
        (Stays (records_fit R.remaining records.old) (records_fit R.remaining records.new)) }
    ensures ready { OnOk result (IsReady records.new) }
    ensures line { OnOk result (record_line records.new ≤ 524290) }
    ensures few { IfOk result (λ dies. length dies ≤ 8) }
    ensures failed { FailsAtReadFault (reader_failed records.old) (reader_failed records.new)
        result }
{
    let mut kept = no_rows(alloc);
    while let Some(fields) = records.get_row() {
        if !gather(alloc, &mut kept, fields)? {
            return Err(Refusal::ReportText {
                line: records.line(),
            });
        }
        match records.advance() {
            Ok(()) => {}
            Err(refusal) => return Err(refusal),
        }
    }
    let dies = dies_in(kept)?;
    Ok(dies)
}

/// Takes the certificate of a die that has a done row.
fn take_cert<R: Read, K: KeptDie>(
    alloc: Global,
    records: &mut ReportReader<R>,
    die: &mut K,
) -> Result<(), Refusal>
    requires ready { IsReady records.old }
    requires line { record_line records.old < 4294967295 }
    ensures read { (d : DieReport) → die.old ≡ K.kept_of d →
        ReadsCert K.kept_of d die.new (record_line records.old) (record_line records.new)
        (records_left R.remaining records.old) (records_left R.remaining records.new) result }
    ensures fits { OnOk result
        (Stays (records_fit R.remaining records.old) (records_fit R.remaining records.new)) }
    ensures ready { OnOk result (IsReady records.new) }
    ensures line { OnOk result (record_line records.new ≤ record_line records.old + 1) }
    ensures failed { FailsAtReadFault (reader_failed records.old) (reader_failed records.new)
        result }
{
    let Some(worst) = die.worst() else {
        return Ok(());
    };
    let line = records.line();
    let Some(fields) = records.get() else {
        return Err(Refusal::ReportText { line });
    };
    let Some(cert) = cert(alloc, fields, die.number(), &worst)? else {
        return Err(Refusal::ReportText { line });
    };
    die.certify(cert);
    records.advance()
}

/// Takes the certificates of all dies, after which no record may stand.
fn take_certs<R: Read, K: KeptDie>(
    alloc: Global,
    records: &mut ReportReader<R>,
    dies: Items<K>,
) -> Result<Items<K>, Refusal>
    requires ready { IsReady records.old }
    requires line { record_line records.old ≤ 524290 }
    requires few { length dies ≤ 8 }
    ensures kept { (ds : List DieReport) → dies ≡ map K.kept_of ds → AreNumbered ds →
        SaysKept K.kept_of (option_map (certs_from ds (record_line records.old))
        (records_left R.remaining records.old)) result }
    ensures fits { OnOk result (IfSome (records_fit R.remaining records.old) (λ fits.
        fits ≡ true)) }
    ensures failed { FailsAtReadFault (reader_failed records.old) (reader_failed records.new)
        result }
{
    let mut dies = dies.into_vec();
    for i in 0..dies.len() {
        match take_cert(alloc, records, &mut dies[i]) {
            Ok(()) => {}
            Err(refusal) => return Err(refusal),
        }
    }
    if records.has_one() {
        return Err(Refusal::ReportText {
            line: records.line(),
        });
    }
    Ok(Items::from_vec(dies))
}

/// Takes a report, and keeps of its dies what `K` does.
fn take_kept<R: Read, K: KeptDie>(records: &mut ReportReader<R>) -> Result<Items<K>, Refusal>
    requires ready { IsReady records.old }
    ensures kept { SaysKept K.kept_of (report_left R.remaining records.old) result }
    ensures fits { OnOk result (IfSome (unread_fit R.remaining records.old) (λ fits.
        fits ≡ true)) }
    ensures failed { FailsAtReadFault (reader_failed records.old) (reader_failed records.new)
        result }
{
    let alloc = records.alloc();
    records.begin()?;
    take_header(records)?;
    let dies = take_rows(alloc, records)?;
    take_certs(alloc, records, dies)
}

impl<R: Read> ReportReader<R> {
    /// Reads the report.
    ///
    /// ReportText has the number of the first record that breaks it, or that a missing one would have had. ReadFault
    /// comes where the reader fails or goes on beyond its bound, and only where csv's reader has failed; the records
    /// before it are judged first. NoMemory comes where memory is refused.
    pub fn report(&mut self) -> Result<Report, Refusal>
        requires ready { IsReady self.old }
        ensures report { Says (report_left R.remaining self.old) result }
        ensures bound { OnOk result (IfSome (unread_fit R.remaining self.old) (λ fits.
            fits ≡ true)) }
        ensures numbered { IfOk result AreNumbered }
        ensures failed { FailsAtReadFault (reader_failed self.old) (reader_failed self.new) result }
    {
        let report = take_kept(self)?;
        Ok(report)
    }

    /// Reads the work of the report: of each of its dies the rows that a certificate is checked against, how the worst
    /// of them ended, and the certificate. These rows rise by number. What else a report says is judged, and not kept.
    ///
    /// It is refused where [`report`](ReportReader::report) is, with the same refusal, of the same record. NoMemory
    /// comes where memory is refused, of which this takes less.
    pub fn work(&mut self) -> Result<ReportWork, Refusal>
        requires ready { IsReady self.old }
        ensures work { SaysWork (report_left R.remaining self.old) result }
        ensures bound { OnOk result (IfSome (unread_fit R.remaining self.old) (λ fits.
            fits ≡ true)) }
        ensures rise { IfOk result AllRise }
        ensures failed { FailsAtReadFault (reader_failed self.old) (reader_failed self.new) result }
    {
        let work = take_kept(self)?;
        Ok(work)
    }
}

/// Reads the report of a reader whole, as [`ReportReader::report`] does, of a reader of records that is made for it and
/// then dropped: ReportText has the number of the first record that breaks it, ReadFault comes where the reader fails or
/// goes on beyond 67,108,864 bytes, NoMemory where memory is refused.
pub fn read_report<R: Read + Drop>(alloc: Global, reader: R) -> Result<Report, Refusal>
    ensures report { Says (option_map report_of (R.remaining reader)) result }
    ensures bound { OnOk result (IfSome
        (option_map (is_within 67108864) (R.remaining reader)) (λ fits. fits ≡ true)) }
    ensures numbered { IfOk result AreNumbered }
{
    let mut records = ReportReader::new(alloc, reader);
    records.report()
}
