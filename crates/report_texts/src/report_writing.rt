//! Reports as texts.

ghost use Rattle.std.specs.Prelude.{◌≡◌, ◌⊎◌, [], IfOk, OnErr, OnOk, IfErr};
ghost use Rattle.std.specs.Io.KnownBytes.{Appends};
ghost use Rattle.slot_types.specs.Refusal.{FailsForMemory};
ghost use Rattle.report_texts.specs.ReportText.{report_text};
ghost use Rattle.report_texts.specs.RowNumbers.{row_with};
ghost use Rattle.report_texts.specs.TextSoFar.{cert_added, certs_of_parts, die_added, joined_text, no_lines, row_added};
ghost use Rattle.report_texts.specs.TextSoFar.{rows_added, rows_of_parts, text_so_far, whole_text};
ghost use Rattle.text_base.specs.Flags.{KeepsFlag, SetsFlag};
ghost use Rattle.text_base.specs.Writing.{AppendsPart};

use crate::report_lines::{put_cert, put_header, put_row};
use crate::reports::{DieReport, Report, ReportRow};
use crate::row_numbers::RowNumbers;
use late_cert::Certificate;
use slot_types::{PageData, Refusal};
use std::alloc::Global;
use std::marker::Model;
use text_base::{Output, write_whole};

/// The text of a report while it is made: a line for each row as it comes, and the certificates, which stand after all
/// rows. It keeps no row and no page but as text.
///
/// Where a call is refused the text is of no more use: it may hold a part of a line.
#[derive(Drop)]
pub struct ReportText {
    rows: Vec<u8>,
    certs: Vec<u8>,
}

impl Model for ReportText {
    ghost use Rattle.report_texts.specs.TextSoFar.{TextSoFar};

    ghost Value = { TextSoFar };

    ghost view = { λ text. record { rows = text.rows.items; certs = text.certs.items } };
}

impl ReportText {
    /// The text of a report without dies, which is its header. The only refusal is NoMemory.
    pub fn new(alloc: Global) -> Result<ReportText, Refusal>
        ensures ok { IfOk result (λ text. text ≡ text_so_far []) }
        ensures refused { FailsForMemory result }
    {
        let mut rows = Vec::new(alloc);
        match put_header(&mut rows) {
            Ok(()) => Ok(ReportText {
                rows,
                certs: Vec::new(alloc),
            }),
            Err(_) => Err(Refusal::NoMemory),
        }
    }

    /// No line: a part of a report's text, which stands after others.
    pub fn part(alloc: Global) -> ReportText
        ensures { result ≡ no_lines }
    {
        ReportText {
            rows: Vec::new(alloc),
            certs: Vec::new(alloc),
        }
    }

    /// Adds a row: these numbers, and the pages that its reads gave. The only refusal is NoMemory.
    pub fn add_row(&mut self, row: &RowNumbers, reads: &[PageData]) -> Result<(), Refusal>
        ensures ok { OnOk result (self.new
            ≡ row_added row.now.die (row_with row.now reads.now) self.old) }
        ensures refused { FailsForMemory result }
    {
        match put_row(&mut self.rows, row, reads) {
            Ok(()) => Ok(()),
            Err(_) => Err(Refusal::NoMemory),
        }
    }

    /// Adds the certificate of a die. The only refusal is NoMemory.
    pub fn add_cert(&mut self, die: u32, cert: &Certificate) -> Result<(), Refusal>
        ensures ok { OnOk result (self.new ≡ cert_added die cert.now self.old) }
        ensures refused { FailsForMemory result }
    {
        match put_cert(&mut self.certs, die, cert) {
            Ok(()) => Ok(()),
            Err(_) => Err(Refusal::NoMemory),
        }
    }

    /// Writes the text as csv: a header, the rows, and after all of them the certificates. Numbers have no leading
    /// zeros, pages are 32 lower-case hexadecimal digits, each record ends with one line feed, no field is quoted.
    ///
    /// It takes no memory. WriteFault comes exactly where the writer fails, as [`write_whole`] says: a front of the
    /// text was then written that isn't the whole.
    pub fn write<W: Output>(self, writer: &mut W) -> Result<(), Refusal>
        ensures written { OnOk result
            (Appends (W.contents writer.old) (W.contents writer.new) (whole_text self)) }
        ensures works { OnOk result
            (KeepsFlag (W.has_failed writer.old) (W.has_failed writer.new)) }
        ensures part { OnErr result
            (AppendsPart (W.contents writer.old) (W.contents writer.new) (whole_text self)) }
        ensures failed { OnErr result
            (SetsFlag (W.has_failed writer.old) (W.has_failed writer.new)) }
        ensures refused { IfErr result (λ refusal. refusal ≡ Refusal.WriteFault) }
    {
        write_whole(writer, &self.rows)?;
        write_whole(writer, &self.certs)
    }
}

/// Writes the rows of all parts.
fn write_rows<W: Output>(writer: &mut W, parts: &[ReportText]) -> Result<(), Refusal>
    ensures written { OnOk result
        (Appends (W.contents writer.old) (W.contents writer.new) (rows_of_parts parts.now)) }
    ensures works { OnOk result
        (KeepsFlag (W.has_failed writer.old) (W.has_failed writer.new)) }
    ensures part { OnErr result
        (AppendsPart (W.contents writer.old) (W.contents writer.new) (rows_of_parts parts.now)) }
    ensures failed { OnErr result
        (SetsFlag (W.has_failed writer.old) (W.has_failed writer.new)) }
    ensures refused { IfErr result (λ refusal. refusal ≡ Refusal.WriteFault) }
{
    for part in parts {
        write_whole(writer, &part.rows)?;
    }
    Ok(())
}

/// Writes the certificates of all parts.
fn write_certs<W: Output>(writer: &mut W, parts: &[ReportText]) -> Result<(), Refusal>
    ensures written { OnOk result
        (Appends (W.contents writer.old) (W.contents writer.new) (certs_of_parts parts.now)) }
    ensures works { OnOk result
        (KeepsFlag (W.has_failed writer.old) (W.has_failed writer.new)) }
    ensures part { OnErr result
        (AppendsPart (W.contents writer.old) (W.contents writer.new) (certs_of_parts parts.now)) }
    ensures failed { OnErr result
        (SetsFlag (W.has_failed writer.old) (W.has_failed writer.new)) }
    ensures refused { IfErr result (λ refusal. refusal ≡ Refusal.WriteFault) }
{
    for part in parts {
        write_whole(writer, &part.certs)?;
    }
    Ok(())
}

/// Writes the text that parts are of, in their order: the rows of all, and after them their certificates. Each part is
/// written as it is, without a copy of the whole, and no memory is taken.
///
/// WriteFault comes exactly where the writer fails, as [`write_whole`] says of each piece: a front of the text was then
/// written that isn't the whole.
pub fn write_parts<W: Output>(writer: &mut W, parts: &[ReportText]) -> Result<(), Refusal>
    ensures written { OnOk result
        (Appends (W.contents writer.old) (W.contents writer.new) (joined_text parts.now)) }
    ensures works { OnOk result
        (KeepsFlag (W.has_failed writer.old) (W.has_failed writer.new)) }
    ensures part { OnErr result
        (AppendsPart (W.contents writer.old) (W.contents writer.new) (joined_text parts.now)) }
    ensures failed { OnErr result
        (SetsFlag (W.has_failed writer.old) (W.has_failed writer.new)) }
    ensures refused { IfErr result (λ refusal. refusal ≡ Refusal.WriteFault) }
{
    write_rows(writer, parts)?;
    write_certs(writer, parts)
}

/// A row without what its reads gave.
fn numbers_of(die: u32, row: &ReportRow) -> RowNumbers
    ensures die { result.die ≡ die }
    ensures row { row_with result row.now.reads ≡ row.now }
{
    RowNumbers {
        die,
        row: row.row,
        job: row.job,
        task: row.task,
        release: row.release,
        due: row.due,
        work: row.work,
        completion: row.completion,
        lateness: row.lateness,
        given: row.given,
    }
}

/// Adds the rows of a die.
fn add_rows(text: &mut ReportText, die: u32, rows: &[ReportRow]) -> Result<(), Refusal>
    ensures ok { OnOk result (text.new ≡ rows_added die rows.now text.old) }
    ensures refused { FailsForMemory result }
{
    for row in rows {
        text.add_row(&numbers_of(die, row), row.reads.as_slice())?;
    }
    Ok(())
}

/// Adds what is said of a die.
fn add_die(text: &mut ReportText, die: &DieReport) -> Result<(), Refusal>
    ensures ok { OnOk result (text.new ≡ die_added die.now text.old) }
    ensures refused { FailsForMemory result }
{
    add_rows(text, die.die, die.rows.as_slice())?;
    match &die.cert {
        Some(cert) => text.add_cert(die.die, cert),
        None => Ok(()),
    }
}

/// The text of a report. The only refusal is NoMemory.
fn text_of(alloc: Global, report: &Report) -> Result<ReportText, Refusal>
    ensures text { IfOk result (λ text. text ≡ text_so_far report.now) }
    ensures refused { FailsForMemory result }
{
    let mut text = ReportText::new(alloc)?;
    for die in report.as_slice() {
        add_die(&mut text, die)?;
    }
    Ok(text)
}

/// Writes a report as csv, as [`ReportText::write`] says, with the same refusals.
pub fn write_report<W: Output>(
    alloc: Global,
    writer: &mut W,
    report: &Report,
) -> Result<(), Refusal>
    ensures written { OnOk result
        (Appends (W.contents writer.old) (W.contents writer.new) (report_text report.now)) }
    ensures works { OnOk result
        (KeepsFlag (W.has_failed writer.old) (W.has_failed writer.new)) }
    ensures memory { result ≡ Err Refusal.NoMemory → writer.new ≡ writer.old }
    ensures part { result ≡ Err Refusal.WriteFault
        → AppendsPart (W.contents writer.old) (W.contents writer.new) (report_text report.now) }
    ensures failed { result ≡ Err Refusal.WriteFault
        → SetsFlag (W.has_failed writer.old) (W.has_failed writer.new) }
    ensures refused { IfErr result (λ refusal.
        (refusal ≡ Refusal.NoMemory) ⊎ (refusal ≡ Refusal.WriteFault)) }
{
    let text = text_of(alloc, report)?;
    text.write(writer)
}
