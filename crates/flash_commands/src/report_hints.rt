//! What is wrong with a record of a report: the value, its bounds, and what would be right.

use crate::files::path_of;
use crate::hints::{FORM, line_in};
use crate::report_needs::{Before, need_of, signed_in};
use crate::values::{shown_name, shown_value};
use csv::ByteRecord;
use std::alloc::Global;
use std::io::{Read, Write};
use std::rt::Files;
use std::{fs, str};
use text_base::{field_in, rows_in, take_row};

/// The fields of a record, by their places.
const FIELDS: [&str; 11] = [
    "row",
    "die",
    "job",
    "task",
    "release",
    "due",
    "work",
    "completion",
    "lateness",
    "given",
    "items",
];

/// The header of a report.
const HEADER: &str = "row,die,job,task,release,due,work,completion,lateness,given,items";

/// A record of a report, and what stands before it.
#[derive(Drop)]
struct Found {
    before: Before,
    /// None where the report ends before it.
    fields: Option<ByteRecord>,
}

/// The record of this number, from 1; none where a record before it can't be read any more.
fn record_in<R: Read + Drop>(alloc: Global, report: R, number: u64) -> Option<Found> {
    let mut rows = rows_in(alloc, report);
    let mut fields = ByteRecord::new(alloc);
    let mut before = Before::HEADER;
    for record in 1..number {
        let Ok(is_there) = take_row(&mut rows, &mut fields) else {
            return None;
        };
        if !is_there {
            return None;
        }
        if record > 1 {
            before.note(&fields);
        }
    }
    let is_there = take_row(&mut rows, &mut fields).ok()?;
    let fields = if is_there { Some(fields) } else { None };
    Some(Found { before, fields })
}

/// The record of a file; none where it isn't there any more as it was read, as a pipe.
fn found_in<R: Files>(files: &R, alloc: Global, name: &str, number: u64) -> Option<Found> {
    let path = path_of(name);
    if !fs::metadata(files, path).ok()?.is_file() {
        return None;
    }
    record_in(alloc, fs::open(files, path).ok()?, number)
}

/// Tells of a record that is missing what it has to be. A writer that fails is passed over.
fn tell_missing<W: Write>(err: &mut W, before: &Before, is_first: bool) {
    let _ = match before.next_cert() {
        _ if is_first => writeln!(
            err,
            "the report has no record, and its first has to be {HEADER}"
        ),
        Some((die, _)) => writeln!(
            err,
            "the report ends before it, and die {die} has a done row, so its certificate has to stand here"
        ),
        None => writeln!(err, "{FORM}"),
    };
}

/// Tells what the first record has to be. A writer that fails is passed over.
fn tell_header<W: Write>(err: &mut W, fields: &ByteRecord) {
    let first = field_in(fields, 0);
    let _ = if fields.len() == 1 && (first.contains(&b';') || first.contains(&b'\t')) {
        writeln!(
            err,
            "commas stand between fields, and it has others: {HEADER}"
        )
    } else {
        writeln!(err, "it has to be {HEADER}")
    };
}

/// Tells where the form of a record stands, of one that isn't there any more as it was read. A writer that fails is
/// passed over.
fn tell_form<W: Write>(err: &mut W) {
    let _ = writeln!(err, "a record has 11 fields, {HEADER}; {FORM}");
}

/// Tells how many fields a record has. A writer that fails is passed over.
fn tell_count<W: Write>(err: &mut W, count: usize) {
    let word = if count == 1 { "field" } else { "fields" };
    let _ = writeln!(err, "it has {count} {word}, and a record has 11: {HEADER}");
}

/// Tells which field of a record has to be what. A writer that fails is passed over.
fn tell_field<W: Write>(err: &mut W, before: &Before, fields: &ByteRecord) {
    let Some((place, need)) = need_of(before, fields) else {
        tell_form(err);
        return;
    };
    let name = FIELDS.get(place).copied().unwrap_or("");
    let field = field_in(fields, place);
    let _ = match signed_in(field) {
        Some(value) => writeln!(err, "`{name}` is {value}, and {need}"),
        None if field.is_empty() => writeln!(err, "`{name}` is empty, and {need}"),
        None => {
            let text = str::from_utf8(field).unwrap_or("\u{fffd}");
            writeln!(err, "`{name}` is {}, and {need}", shown_value(text))
        }
    };
}

/// Tells what is wrong with a record, and what would be right. A writer that fails is passed over.
fn tell_record<W: Write>(err: &mut W, found: &Found, is_first: bool) {
    let Some(fields) = &found.fields else {
        tell_missing(err, &found.before, is_first);
        return;
    };
    if is_first {
        tell_header(err, fields);
    } else if found.before.is_over(fields) {
        let _ = writeln!(
            err,
            "no record may stand here: each die with a done row has its certificate"
        );
    } else if fields.len() == FIELDS.len() {
        tell_field(err, &found.before, fields);
    } else {
        tell_count(err, fields.len());
    }
}

/// Tells where the record of a report is that is at fault, what is wrong with it, and what would be right: by its value
/// where the report is a file that can be read again. A writer that fails is passed over.
pub(crate) fn report_of_report<R: Files, W: Write>(
    files: &R,
    alloc: Global,
    err: &mut W,
    report: Option<&str>,
    record: &str,
) {
    let (Some(name), Ok(number)) = (report, record.parse::<u64>()) else {
        return;
    };
    let shown = shown_name(name);
    let _ = match line_in(files, name, number) {
        Some(line) => write!(err, "{shown}, line {line} (record {number}): "),
        None => write!(err, "{shown}, record {number}: "),
    };
    match found_in(files, alloc, name, number) {
        Some(found) => tell_record(err, &found, number == 1),
        None if number == 1 => {
            let _ = writeln!(err, "it has to be {HEADER}");
        }
        None => tell_form(err),
    }
}
