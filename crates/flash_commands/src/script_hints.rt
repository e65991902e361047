//! What is wrong with a row of a script: the value, its bounds, and what to do.

use crate::files::path_of;
use crate::hints::{FORM, Texts};
use crate::plan_hints::dies_in;
use crate::record_lines::{Record, record_of};
use crate::values::{shown_name, shown_value};
use std::alloc::Global;
use std::io::Write;
use std::rt::Files;
use std::{fs, str};
use text_base::number;

/// The header of a script.
const HEADER: &str = "at,die,task,kind,release,due,ops";

/// The fields of a row that are numbers, by their places.
const NUMBERS: [(usize, &str); 5] = [
    (0, "at"),
    (1, "die"),
    (2, "task"),
    (4, "release"),
    (5, "due"),
];

/// The record of a file of this number; none where it isn't there any more as it was read, as a pipe.
fn record_in<R: Files>(files: &R, alloc: Global, name: &str, number: u64) -> Option<Record> {
    let path = path_of(name);
    if !fs::metadata(files, path).ok()?.is_file() {
        return None;
    }
    record_of(alloc, fs::open(files, path).ok()?, number)
}

/// A field of a record that has no quotes.
fn field_at(record: &str, place: usize) -> Option<&str> {
    if record.contains('"') {
        return None;
    }
    record.split(',').nth(place)
}

/// The first field of a record that has to be a number and is none, and its name.
fn bad_number(record: &str) -> Option<(&'static str, &str)> {
    for (place, name) in NUMBERS {
        if let Some(field) = field_at(record, place)
            && number(field.as_bytes()).is_none()
        {
            return Some((name, field));
        }
    }
    None
}

/// Whether a word is an operation, as `R7`, `T7` or `W7=` and 32 hexadecimal digits.
fn is_operation(word: &str) -> bool {
    let is_page = |page: &str| number(page.as_bytes()).is_some();
    match (word.get(..1), word.get(1..)) {
        (Some("R" | "T"), Some(page)) => is_page(page),
        (Some("W"), Some(rest)) => match rest.split_once('=') {
            Some((page, digits)) => {
                is_page(page)
                    && digits.len() == 32
                    && digits.bytes().all(|byte| byte.is_ascii_hexdigit())
            }
            None => false,
        },
        _ => false,
    }
}

/// The first word of a record's operations that is none.
fn bad_operation(record: &str) -> Option<&str> {
    let ops = field_at(record, 6)?;
    ops.split(' ').find(|word| !is_operation(word))
}

/// Tells what is wrong with the first record. A writer that fails is passed over.
fn tell_header<W: Write>(err: &mut W, record: &str) {
    let _ = if record.contains(';') || record.contains('\t') {
        writeln!(
            err,
            "commas stand between fields, and it has others: {HEADER}"
        )
    } else {
        writeln!(err, "it has to be {HEADER}")
    };
}

/// Tells which field of a row is no number. A writer that fails is passed over.
fn tell_number<W: Write>(err: &mut W, record: &str) {
    let bounds = "a whole number from 0 to 4294967295";
    let _ = match bad_number(record) {
        Some((name, field)) => {
            writeln!(
                err,
                "`{name}` is {}, and has to be {bounds}",
                shown_value(field)
            )
        }
        None => writeln!(
            err,
            "at, die, task, release and due have to be each {bounds}"
        ),
    };
}

/// Tells which kind a row has. A writer that fails is passed over.
fn tell_kind<W: Write>(err: &mut W, record: &str) {
    let _ = match field_at(record, 3) {
        Some(kind) => writeln!(
            err,
            "`kind` is {}, and has to be job or collect",
            shown_value(kind)
        ),
        None => writeln!(err, "`kind` has to be job or collect"),
    };
}

/// Tells which die a row names, and how many there are. A writer that fails is passed over.
fn tell_die<W: Write>(err: &mut W, record: &str, dies: Option<usize>) {
    let _ = match (field_at(record, 1), dies) {
        (Some(die), Some(1)) => writeln!(err, "`die` is {die}, and the plan has die 0 alone"),
        (Some(die), Some(dies)) => writeln!(
            err,
            "`die` is {die}, and the plan has {dies} dies, from 0 to {}",
            dies.saturating_sub(1)
        ),
        _ => writeln!(err, "`die` has to be one of the plan's"),
    };
}

/// Tells the slot of a row, and which it may have. A writer that fails is passed over.
fn tell_at<W: Write>(err: &mut W, record: &str, slots: Option<u32>) {
    let at = match field_at(record, 0) {
        Some(field) => number(field.as_bytes()),
        None => None,
    };
    let _ = match (at, slots) {
        (Some(at), Some(slots)) if at > slots => writeln!(
            err,
            "`at` is {at}, and the run has {slots} slots: raise --slots, or leave out what comes later"
        ),
        (Some(at), _) => writeln!(
            err,
            "`at` is {at}, which is below that of the die's row before: sort the rows of a die by `at`"
        ),
        _ => writeln!(
            err,
            "`at` has to be at most --slots, and not below that of the die's row before"
        ),
    };
}

/// Tells which operation of a row is none. A writer that fails is passed over.
fn tell_ops<W: Write>(err: &mut W, record: &str) {
    let form = "operations are R7, T7, or W7= and 32 hexadecimal digits, with a space between two";
    let _ = match (field_at(record, 3), bad_operation(record)) {
        (Some("collect"), _) => writeln!(err, "`ops` of a collection has to be empty"),
        (_, Some(word)) => writeln!(err, "`ops` has {}: {form}", shown_value(word)),
        _ => writeln!(err, "{form}"),
    };
}

/// Tells what is wrong with a record, by its cause. A writer that fails is passed over.
fn tell_cause<W: Write>(
    err: &mut W,
    cause: &str,
    record: &str,
    slots: Option<u32>,
    dies: Option<usize>,
) {
    match cause {
        "TooManyRows" => {
            let _ = writeln!(err, "a script has at most 1000000 rows; cut it");
        }
        "Header" => tell_header(err, record),
        "Fields" => {
            let fields = record.split(',').count();
            let word = if fields == 1 { "field" } else { "fields" };
            let _ = if record.is_empty() || record.contains('"') {
                writeln!(err, "a row has 7 fields: {HEADER}")
            } else {
                writeln!(err, "it has {fields} {word}, and a row has 7: {HEADER}")
            };
        }
        "Number" => tell_number(err, record),
        "Kind" => tell_kind(err, record),
        "Die" => tell_die(err, record, dies),
        "At" => tell_at(err, record, slots),
        "Ops" => tell_ops(err, record),
        _ => {
            let _ = writeln!(err, "{FORM}");
        }
    }
}

/// Tells where the record of a script is that is at fault, what is wrong with it, and what to do: by its value where the
/// script is a file that can be read again. A writer that fails is passed over.
pub(crate) fn report_row<R: Files, W: Write>(
    files: &R,
    alloc: Global,
    err: &mut W,
    texts: Texts<'_>,
    record: &str,
    cause: &str,
) {
    let (Some(name), Ok(number)) = (texts.script, record.parse::<u64>()) else {
        return;
    };
    let shown = shown_name(name);
    let dies = match texts.plan {
        Some(plan) if cause == "Die" => dies_in(files, alloc, plan),
        _ => None,
    };
    match record_in(files, alloc, name, number) {
        Some(found) => {
            let line = found.line;
            let _ = write!(err, "{shown}, line {line} (record {number}): ");
            let text = str::from_utf8(found.text.as_slice()).unwrap_or("");
            tell_cause(err, cause, text, texts.slots, dies);
        }
        None => {
            let _ = write!(err, "{shown}, record {number}: ");
            tell_cause(err, cause, "", texts.slots, dies);
        }
    }
}
