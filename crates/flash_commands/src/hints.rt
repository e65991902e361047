//! What is reported of a refusal behind its line: the file, the place in it, the cause, and what to do.

use crate::files::{inputs_among, inputs_in, path_of};
use crate::plan_hints::{report_dies, report_tasks};
use crate::record_lines::line_of_record;
use crate::refusal_names::refusal_name;
use crate::report_hints::report_of_report;
use crate::script_hints::report_row;
use crate::values::{shown_name, shown_word};
use std::alloc::Global;
use std::io::{ErrorKind, Read, Write};
use std::rt::Files;
use std::{fs, io};

/// The files of a command, by what they have.
#[derive(Clone, Copy, Drop)]
pub struct Texts<'a> {
    pub plan: Option<&'a str>,
    pub script: Option<&'a str>,
    pub checkpoint: Option<&'a str>,
    pub sheet: Option<&'a str>,
    /// A report whose refusal is reported without its name.
    pub report: Option<&'a str>,
    /// Reports whose refusals are reported each with its name in front, as `monday.csv: error 20 ReportText 3`.
    pub reports: &'a [&'a str],
    pub traces: &'a [&'a str],
    /// How many slots are run, if any are.
    pub slots: Option<u32>,
    /// The die and the task that options name, each with its option.
    pub die: Option<(&'static str, u32)>,
    pub task: Option<(&'static str, u32)>,
}

impl Texts<'_> {
    /// A command without files.
    pub const NONE: Texts<'static> = Texts {
        plan: None,
        script: None,
        checkpoint: None,
        sheet: None,
        report: None,
        reports: &[],
        traces: &[],
        slots: None,
        die: None,
        task: None,
    };
}

/// The most bytes that are read of a script, a report or a trace; of a checkpoint; and of a datasheet.
const SCRIPT_BYTES: u64 = 67_108_864;

const CHECKPOINT_BYTES: u64 = 134_217_728;

const SHEET_BYTES: u64 = 1_048_576;

/// Where the form of a text stands.
pub(crate) const FORM: &str = "man maulgreen-texts has the form";

const TRACE_FORM: &str = "flashplan import --help has the form";

/// What a checkpoint of another number of dies is.
const OTHER_PLAN: &str = "it was saved of the dies of another plan";

/// The line in which a record of a file begins; none where the file isn't there any more as it was read, as a pipe.
pub(crate) fn line_in<R: Files>(files: &R, name: &str, record: u64) -> Option<u64> {
    let path = path_of(name);
    if !fs::metadata(files, path).ok()?.is_file() {
        return None;
    }
    line_of_record(fs::open(files, path).ok()?, record)
}

/// Tells where a record of a file is, and what to do. A writer that fails is passed over.
fn report_record<R: Files, W: Write>(
    files: &R,
    err: &mut W,
    name: Option<&str>,
    record: &str,
    remedy: &str,
) {
    let (Some(name), Ok(number)) = (name, record.parse::<u64>()) else {
        return;
    };
    let shown = shown_name(name);
    let _ = match line_in(files, name, number) {
        Some(line) => writeln!(err, "{shown}, line {line} (record {number}): {remedy}"),
        None => writeln!(err, "{shown}, record {number}: {remedy}"),
    };
}

/// Why the first byte of a file can't be read, if it can't.
fn first_fault<R: Files>(files: &R, path: &str) -> Option<io::Error> {
    match fs::open(files, path) {
        Err(error) => Some(error),
        Ok(mut file) => file.read(&mut [0]).err(),
    }
}

/// Tells why a file can't be opened, or not be read to its end. Of what is no file, as a device or a pipe, this isn't
/// seen any more, and it is said what may be. A writer that fails is passed over.
fn report_unread<R: Files, W: Write>(files: &R, err: &mut W, name: Option<&str>, most: u64) {
    let Some(name) = name else {
        return;
    };
    let (shown, path) = (shown_name(name), path_of(name));
    let _ = match fs::metadata(files, path) {
        Err(error) => writeln!(err, "{shown}: {error}"),
        Ok(found) if found.is_dir() => writeln!(err, "{shown}: it is a directory; name a file"),
        Ok(found) if found.is_file() && found.len() > most => {
            let bytes = found.len();
            writeln!(
                err,
                "{shown}: it has {bytes} bytes, and {most} are read at most; cut it"
            )
        }
        Ok(found) if found.is_file() => match first_fault(files, path) {
            Some(error) => writeln!(err, "{shown}: {error}"),
            None => Ok(()),
        },
        Ok(_) if most < u64::MAX => writeln!(
            err,
            "{shown}: it is no file; a read of it failed, or it has more than {most} bytes"
        ),
        Ok(_) => writeln!(err, "{shown}: it is no file; a read of it failed"),
    };
}

/// Tells which files can't be read, and why. A writer that fails is passed over.
fn report_files<R: Files, W: Write>(files: &R, err: &mut W, texts: Texts<'_>) {
    report_unread(files, err, texts.plan, u64::MAX);
    report_unread(files, err, texts.script, SCRIPT_BYTES);
    report_unread(files, err, texts.checkpoint, CHECKPOINT_BYTES);
    report_unread(files, err, texts.sheet, SHEET_BYTES);
    report_unread(files, err, texts.report, SCRIPT_BYTES);
    for trace in texts.traces {
        report_unread(files, err, Some(*trace), SCRIPT_BYTES);
    }
    let once = [texts.plan, texts.script, texts.checkpoint];
    if inputs_in(&once) > 1 || inputs_among(texts.reports) > 1 || inputs_among(texts.traces) > 1 {
        let _ = writeln!(
            err,
            "standard input: it is read once, and stands for one file"
        );
    }
}

/// Tells of a plan what explains it. A writer that fails is passed over.
fn report_plan<W: Write>(err: &mut W, plan: Option<&str>) {
    if let Some(plan) = plan {
        let (shown, word) = (shown_name(plan), shown_word(plan));
        let _ = writeln!(
            err,
            "{shown}: flashplan explain {word} says what is wrong, and what would mend it"
        );
    }
}

/// Tells of a file what to do. A writer that fails is passed over.
fn report_whole<W: Write>(err: &mut W, name: Option<&str>, remedy: &str) {
    if let Some(name) = name {
        let shown = shown_name(name);
        let _ = writeln!(err, "{shown}: {remedy}");
    }
}

/// Tells in which line of a datasheet a fault lies, and what says its form. A writer that fails is passed over.
fn report_sheet<W: Write>(err: &mut W, sheet: Option<&str>, line: &str) {
    if let (Some(sheet), Some(number)) = (sheet, line.strip_suffix(',')) {
        let shown = shown_name(sheet);
        let _ = writeln!(err, "{shown}, line {number}: {FORM}");
    }
}

/// Tells where the first row is that was refused, and what it has. A writer that fails is passed over.
fn report_refused<R: Files, W: Write>(
    files: &R,
    err: &mut W,
    script: Option<&str>,
    record: &str,
    number: &str,
) {
    if let Ok(number) = number.parse::<u8>()
        && let Some(named) = refusal_name(number)
    {
        report_record(files, err, script, record, named.meaning);
    }
}

/// Tells why standard output took no more, where a write of it failed; nothing where its reader went away. A writer that
/// fails is passed over.
pub fn report_unwritten<W: Write>(err: &mut W, error: Option<&io::Error>) {
    if let Some(error) = error
        && error.kind() != ErrorKind::BrokenPipe
    {
        let _ = writeln!(err, "standard output: {error}");
    }
}

/// Tells where a trace's line is, and what to do. A writer that fails is passed over.
fn report_trace<W: Write>(err: &mut W, trace: Option<&str>, line: &str) {
    if let (Some(trace), Some(number)) = (trace, line.strip_suffix(':')) {
        let shown = shown_name(trace);
        let _ = writeln!(err, "{shown}, line {number}: {TRACE_FORM}");
    }
}

/// The first words of a line; empty where there are fewer.
fn words_in(line: &str) -> [&str; 7] {
    let mut words = [""; 7];
    let mut count: usize = 0;
    for word in line.split_ascii_whitespace() {
        if let Some(place) = words.get_mut(count) {
            *place = word;
            count = count.saturating_add(1);
        }
    }
    words
}

/// Tells more of a line that reported a refusal; nothing of any other line.
fn report_line<R: Files, W: Write>(
    files: &R,
    alloc: Global,
    err: &mut W,
    line: &str,
    texts: Texts<'_>,
) {
    match words_in(line) {
        ["error", "2" | "3" | "18", ..] => report_plan(err, texts.plan),
        ["error", "4", ..] => report_dies(files, alloc, err, texts),
        ["error", "5", ..] => report_tasks(files, alloc, err, texts),
        ["error", "19", _, record, cause, ..] => {
            report_row(files, alloc, err, texts, record, cause);
        }
        ["error", "20", _, record, ..] => {
            report_of_report(files, alloc, err, texts.report, record);
        }
        ["error", "21", ..] => report_files(files, err, texts),
        ["refused", _, "first", "line", record, _, number] => {
            report_refused(files, err, texts.script, record, number);
        }
        ["error:", "the", "checkpoint,", "record", record, ..]
        | ["error:", "the", "checkpoint,", "die", _, "record", record] => {
            let number = record.strip_suffix(':').unwrap_or(record);
            report_record(files, err, texts.checkpoint, number, FORM);
        }
        ["error:", "the", "checkpoint", "has", ..] => {
            report_whole(err, texts.checkpoint, OTHER_PLAN);
        }
        ["error:", "the", "datasheet", ..] | ["error:", "[[task]]", ..] => {
            report_whole(err, texts.sheet, FORM);
        }
        ["error:", "line", line, ..] => {
            report_sheet(err, texts.sheet, line);
            report_trace(err, texts.traces.first().copied(), line);
        }
        ["error:", "the", "trace", ..] | ["error:", "its", "pages", ..] => {
            report_whole(err, texts.traces.first().copied(), TRACE_FORM);
        }
        _ => {}
    }
}

/// What is reported of a report in a line, if its name stands in front.
fn of_report<'a>(line: &'a str, report: &str) -> Option<&'a str> {
    line.strip_prefix(report)?.strip_prefix(": ")
}

/// Tells more of a line that reported what is wrong in one of several traces, as `error: a.log: line 3: ..`.
fn report_named_trace<W: Write>(err: &mut W, line: &str, trace: &str) {
    let Some(named) = line.strip_prefix("error: ") else {
        return;
    };
    if let Some(of_it) = of_report(named, trace)
        && let ["line", number, ..] = words_in(of_it)
    {
        report_trace(err, Some(trace), number);
    }
}

/// Tells more of what was reported of a command, line by line: of each refusal the file, the place in it, the cause, and
/// what to do; of files that can't be opened why. Files are opened once more, but for pipes, and read up to the place. A
/// writer that fails is passed over.
pub fn report_more<R: Files, W: Write>(
    files: &R,
    alloc: Global,
    err: &mut W,
    said: &str,
    texts: Texts<'_>,
) {
    for line in said.lines() {
        report_line(files, alloc, err, line, texts);
        for trace in texts.traces {
            report_named_trace(err, line, trace);
        }
        for name in texts.reports {
            if let Some(of_it) = of_report(line, name) {
                let report = Some(*name);
                report_line(
                    files,
                    alloc,
                    err,
                    of_it,
                    Texts {
                        report,
                        ..Texts::NONE
                    },
                );
            }
        }
    }
}
