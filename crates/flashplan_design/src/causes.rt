//! What is wrong with the text of a plan, in sentences.

use crate::first_faults::first_fault;
use slot_types::Cause;
use std::alloc::Global;
use std::io;
use std::io::Write;

/// The keys that each plan has on top.
const TOP_KEYS: &str = "version, dies, blocks, pages, erase_slots, logical, alpha and task";

/// Writes which keys a plan has.
fn put_keys(text: &mut Vec<u8>) -> io::Result<()> {
    writeln!(
        text,
        "plan: its keys are {TOP_KEYS}; in each [[task]] die and cap."
    )?;
    writeln!(
        text,
        "plan: where version is 2, it also has common; in each [[task]] period, collect_period, work and writes."
    )
}

/// The cause alone, where no place is known.
fn put_alone(text: &mut Vec<u8>, cause: Cause) -> io::Result<()> {
    let fault = match cause {
        Cause::TooLong => "the text has more than 1048576 bytes.",
        Cause::NotToml => "the text isn't TOML, or not UTF-8.",
        Cause::ExtraKey => "it has a key that no plan of its version has.",
        Cause::MissingKey => "a key is missing.",
        Cause::WrongKind => {
            "a value isn't a whole number from 0 to 4294967295, or task isn't an array of tables."
        }
        Cause::BadVersion => "version has to be 1 or 2.",
        _ => "the text can't be read.",
    };
    writeln!(text, "plan: {fault}")
}

/// The line and the column, both from 1, of what comes after these bytes. A column counts characters: each has one byte
/// that continues none.
fn position_after(before: &[u8]) -> (u64, u64) {
    let (mut line, mut column) = (1u64, 1u64);
    for byte in before {
        if *byte == b'\n' {
            line = line.saturating_add(1);
            column = 1;
        } else if *byte & 0xC0 != 0x80 {
            column = column.saturating_add(1);
        }
    }
    (line, column)
}

/// Writes what is wrong at a byte of a plan.
fn put_at(text: &mut Vec<u8>, plan: &[u8], at: usize, fault: &str) -> io::Result<()> {
    let (line, column) = position_after(&plan[..at.min(plan.len())]);
    writeln!(text, "plan: line {line}, column {column}: {fault}.")
}

/// Writes why a text isn't TOML, in the words of the reader of TOML, and where.
fn put_toml(text: &mut Vec<u8>, plan: &[u8], error: &toml::de::Error) -> io::Result<()> {
    match error.span() {
        Some(span) => put_at(text, plan, span.start, error.message()),
        None => Err(io::Error::from(io::ErrorKind::OutOfMemory)),
    }
}

/// Writes the fault of a plan that is UTF-8, and where it lies, as a second look at its text finds it.
fn put_place(alloc: Global, text: &mut Vec<u8>, plan: &str, cause: Cause) -> io::Result<()> {
    let table = match toml::table_from_str(alloc, plan) {
        Ok(table) => table,
        Err(error) => return put_toml(text, plan.as_bytes(), &error),
    };
    match first_fault(&table) {
        Some(fault) if fault.may_be(cause) => writeln!(text, "plan: {fault}"),
        _ => put_alone(text, cause),
    }
}

/// Writes the fault of a plan's text, and where it lies. A text that is too long isn't looked at again.
fn put_fault(alloc: Global, text: &mut Vec<u8>, plan: &[u8], cause: Cause) -> io::Result<()> {
    if cause == Cause::TooLong {
        return put_alone(text, cause);
    }
    match std::str::from_utf8(plan) {
        Ok(plan) => put_place(alloc, text, plan, cause),
        Err(error) => put_at(text, plan, error.valid_up_to(), "the text isn't UTF-8"),
    }
}

/// Writes the first fault of a plan's text, and how such a text is made where that helps.
pub fn put_cause(alloc: Global, text: &mut Vec<u8>, plan: &[u8], cause: Cause) -> io::Result<()> {
    put_fault(alloc, text, plan, cause)?;
    match cause {
        Cause::ExtraKey | Cause::MissingKey => put_keys(text),
        _ => Ok(()),
    }
}
