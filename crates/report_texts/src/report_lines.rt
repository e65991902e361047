//! The lines of a report.
//!
//! They are made in one buffer, number by number. A line is what csv writes with its defaults: no field needs quotes.

ghost use Rattle.std.specs.Prelude.{◌≡◌, ◌++◌, ◌∷◌, [], codes, decimal, OnOk, flat_map};
ghost use Rattle.std.specs.Fmt.{signed_decimal};
ghost use Rattle.csv.specs.Writing.{default_writer, row_text};
ghost use Rattle.report_texts.specs.ReportText.{cert_fields, cert_numbers, header_fields};
ghost use Rattle.report_texts.specs.ReportText.{kind_word, numbers_field};
ghost use Rattle.report_texts.specs.ReportText.{pages_field, row_fields, row_start};
ghost use Rattle.report_texts.specs.RowNumbers.{row_with};
ghost use Rattle.text_base.specs.Pages.{page_word};
ghost use Rattle.report_texts.specs.Commas.{after_commas};
ghost use Rattle.report_texts.specs.Lines.{line_text};
ghost use Rattle.late_cert.specs.Schedule.{lateness_of};

use crate::lines::Line;
use crate::reports::RowKind;
use crate::row_numbers::RowNumbers;
use itoa::Buffer;
use late_cert::{Certificate, lateness};
use slot_types::{JobNo, PageData};
use std::io;
use std::io::Write;
use text_base::put_page;

/// The word for what a row is about.
fn word(kind: RowKind) -> &'static str
    ensures { result.now ≡ kind_word kind }
{
    match kind {
        RowKind::Job => "job",
        RowKind::Collect => "collect",
        RowKind::Waived => "waived",
    }
}

/// Adds a number.
fn put_number(text: &mut Vec<u8>, number: u32) -> io::Result<()>
    ensures { OnOk result (text.new.items ≡ text.old.items ++ decimal number) }
{
    let mut buffer = Buffer::new();
    text.extend_from_slice(buffer.format(number).as_bytes())?;
    Ok(())
}

/// Adds pages, each after a space.
fn put_more_pages(text: &mut Vec<u8>, pages: &[PageData]) -> io::Result<()>
    ensures { OnOk result (text.new.items ≡ text.old.items ++ flat_map (λ page.
        32 ∷ page_word page) pages.now) }
{
    for page in pages {
        text.push(b' ')?;
        put_page(text, page)?;
    }
    Ok(())
}

/// Adds pages, with a space between two.
fn put_pages(text: &mut Vec<u8>, pages: &[PageData]) -> io::Result<()>
    ensures { OnOk result (text.new.items ≡ text.old.items ++ pages_field pages.now) }
{
    let Some((first, rest)) = pages.split_first() else {
        return Ok(());
    };
    put_page(text, first)?;
    put_more_pages(text, rest)
}

/// Adds numbers, each after a space.
fn put_more_numbers(text: &mut Vec<u8>, numbers: &[JobNo]) -> io::Result<()>
    ensures { OnOk result (text.new.items ≡ text.old.items ++ flat_map (λ number.
        32 ∷ decimal number) numbers.now) }
{
    for number in numbers {
        text.push(b' ')?;
        put_number(text, number.0)?;
    }
    Ok(())
}

/// Adds numbers, with a space between two.
fn put_numbers(text: &mut Vec<u8>, numbers: &[JobNo]) -> io::Result<()>
    ensures { OnOk result (text.new.items ≡ text.old.items ++ numbers_field numbers.now) }
{
    let Some((first, rest)) = numbers.split_first() else {
        return Ok(());
    };
    put_number(text, first.0)?;
    put_more_numbers(text, rest)
}

/// The fields of a row between its first one and its pages, each after a comma.
fn row_line(row: &RowNumbers) -> Line
    ensures { line_text result ≡ after_commas (row_start row.now.die (row_with row.now [])) }
{
    let mut line = Line::new();
    line.put_field_if(row.given);
    line.put_lateness_if(row.lateness);
    line.put_field_if(row.completion);
    line.put_field(row.work);
    line.put_field(row.due);
    line.put_field(row.release);
    line.put_field(row.task.0);
    line.put_field(row.job.0);
    line.put_field(row.die);
    line
}

/// Adds the fields of a row, without its pages.
fn put_row_start(text: &mut Vec<u8>, row: &RowNumbers) -> io::Result<()>
    ensures { OnOk result (text.new.items ≡ text.old.items ++ (kind_word row.now.row
        ++ after_commas (row_start row.now.die (row_with row.now [])))) }
{
    let line = row_line(row);
    text.extend_from_slice(word(row.row).as_bytes())?;
    text.extend_from_slice(line.as_slice())?;
    Ok(())
}

/// Adds the record of a row with these numbers, whose reads gave these pages.
pub fn put_row(text: &mut Vec<u8>, row: &RowNumbers, reads: &[PageData]) -> io::Result<()>
    ensures { OnOk result (text.new.items ≡ text.old.items
        ++ row_text default_writer (row_fields row.now.die (row_with row.now reads.now))) }
{
    put_row_start(text, row)?;
    text.push(b',')?;
    put_pages(text, reads)?;
    text.push(b'\n')?;
    Ok(())
}

/// Adds the first fields of a certificate.
#[tactic(auto, unfolding(crate::specs::Commas::after_commas))]
fn put_cert_start(text: &mut Vec<u8>, die: u32, cert: &Certificate) -> io::Result<()>
    ensures { OnOk result (text.new.items
        ≡ text.old.items ++ (codes "cert" ++ after_commas (cert_numbers die cert.now))) }
{
    let (job, start, due, completion) = (cert.job.0, cert.start, cert.due, cert.completion);
    write!(text, "cert,{die},{job},,{start},{due},,{completion}")
}

/// Adds the lateness that a certificate says.
fn put_cert_lateness(text: &mut Vec<u8>, cert: &Certificate) -> io::Result<()>
    ensures { OnOk result (text.new.items
        ≡ text.old.items ++ signed_decimal (lateness_of cert.now.completion cert.now.due)) }
{
    let late = lateness(cert.completion, cert.due);
    write!(text, "{late}")
}

/// Adds the record of a certificate.
pub fn put_cert(text: &mut Vec<u8>, die: u32, cert: &Certificate) -> io::Result<()>
    ensures { OnOk result (text.new.items
        ≡ text.old.items ++ row_text default_writer (cert_fields die cert.now)) }
{
    put_cert_start(text, die, cert)?;
    text.push(b',')?;
    put_cert_lateness(text, cert)?;
    text.push(b',')?;
    text.push(b',')?;
    put_numbers(text, cert.jobs.as_slice())?;
    text.push(b'\n')?;
    Ok(())
}

/// Adds the record of the header.
#[tactic(auto, unfolding(csv::specs::Writing::fields_text, csv::specs::Writing::is_blank))]
pub fn put_header(text: &mut Vec<u8>) -> io::Result<()>
    ensures { OnOk result (text.new.items
        ≡ text.old.items ++ row_text default_writer header_fields) }
{
    text.extend_from_slice(b"row,die,job,task,release,due,work,completion,lateness,given,items\n")?;
    Ok(())
}
