//! The requests of a trace.

use crate::faults::{LineFault, TraceFault};
use slot_types::MAX_SLOT;
use std::alloc::{AllocError, Global};
use std::str;

/// Bytes of a page.
const PAGE: u64 = 4096;

/// The most operations of a job.
const MOST_PAGES: u64 = 64;

/// The most tasks of a die.
const MOST_FILES: usize = 16;

/// What a request does.
#[derive(Clone, Copy, PartialEq, Eq, Debug, Drop)]
pub(crate) enum Action {
    Read,
    Write,
    Trim,
}

/// A request of a trace.
#[derive(Clone, Copy, PartialEq, Eq, Debug, Drop)]
pub(crate) struct Request {
    /// Its line, the first being 1.
    pub(crate) line: u32,
    /// The slot in which it comes.
    pub(crate) slot: u32,
    /// The number of its file, in the order in which files appear.
    pub(crate) task: u32,
    pub(crate) action: Action,
    /// Its first page in the file, and how many there are: 1 to 64.
    pub(crate) first: u64,
    pub(crate) pages: u32,
}

/// The requests of a trace, in its order, and how many files these are of.
#[derive(Drop)]
pub(crate) struct Trace {
    pub(crate) requests: Vec<Request>,
    pub(crate) tasks: u32,
}

/// What a line says.
#[derive(Clone, Copy)]
struct Said<'a> {
    time: u64,
    file: &'a str,
    action: Action,
    offset: u64,
    length: u64,
}

fn number(field: &str) -> Result<u64, LineFault> {
    match field.parse::<u64>() {
        Ok(number) => Ok(number),
        Err(_) => Err(LineFault::Number),
    }
}

// Whether an action asks for no page.
fn is_passed_over(action: &str) -> bool {
    ["add", "open", "close", "sync", "datasync"].contains(&action)
}

fn action_of(word: &str) -> Result<Action, LineFault> {
    match word {
        "read" => Ok(Action::Read),
        "write" => Ok(Action::Write),
        "trim" => Ok(Action::Trim),
        _ => Err(LineFault::Action),
    }
}

// The fields of a line, and how many there are, six at most.
fn fields_of(line: &str) -> ([&str; 6], usize) {
    let mut fields: [&str; 6] = [""; 6];
    let mut count: usize = 0;
    for field in line.split_ascii_whitespace() {
        if count < 6 {
            fields[count] = field;
            count += 1;
        }
    }
    (fields, count)
}

// What a line asks for: nothing where it opens or closes a file, or says the version.
fn said_of(line: &str) -> Result<Option<Said<'_>>, LineFault> {
    let ([time, file, action, offset, length, _], count) = fields_of(line);
    if count == 0 {
        return Ok(None);
    }
    if time == "fio" {
        return if action == "3" {
            Ok(None)
        } else {
            Err(LineFault::Version)
        };
    }
    if count < 3 || count > 5 {
        return Err(LineFault::Fields);
    }
    let time = number(time)?;
    if is_passed_over(action) {
        return Ok(None);
    }
    let action = action_of(action)?;
    if count != 5 {
        return Err(LineFault::Fields);
    }
    Ok(Some(Said {
        time,
        file,
        action,
        offset: number(offset)?,
        length: number(length)?,
    }))
}

// The number of a file, which is added where it is new.
fn task_of<'a>(files: &mut Vec<&'a str>, file: &'a str) -> Result<u32, TaskFault> {
    let place = match files.iter().position(|name| *name == file) {
        Some(place) => place,
        None => {
            if files.len() >= MOST_FILES {
                return Err(TaskFault::Files);
            }
            files.reserve(1)?;
            files.push_reserved(file);
            files.len().saturating_sub(1)
        }
    };
    Ok(u32::try_from(place).unwrap_or(u32::MAX))
}

// Why a file has no number.
enum TaskFault {
    NoMemory,
    Files,
}

impl From<AllocError> for TaskFault {
    fn from(_error: AllocError) -> TaskFault {
        TaskFault::NoMemory
    }
}

// The request that a line asks for, of a task.
fn request_of(
    said: &Said<'_>,
    line: u32,
    task: u32,
    slot_us: u32,
    due: u32,
) -> Result<Request, LineFault> {
    let first = said.offset / PAGE;
    let end = said.offset.saturating_add(said.length).div_ceil(PAGE);
    let pages = end.saturating_sub(first);
    if said.length == 0 || pages == 0 || pages > MOST_PAGES {
        return Err(LineFault::Pages { pages });
    }
    let slot = said.time / u64::from(slot_us.max(1));
    if slot.saturating_add(u64::from(due)) > u64::from(MAX_SLOT) {
        return Err(LineFault::Slot { slot });
    }
    Ok(Request {
        line,
        slot: u32::try_from(slot).unwrap_or(u32::MAX),
        task,
        action: said.action,
        first,
        pages: u32::try_from(pages).unwrap_or(u32::MAX),
    })
}

// Adds what a line asks for.
fn add_line<'a>(
    requests: &mut Vec<Request>,
    files: &mut Vec<&'a str>,
    text: &'a str,
    line: u32,
    slot_us: u32,
    due: u32,
) -> Result<(), TraceFault> {
    let said = match said_of(text) {
        Ok(Some(said)) => said,
        Ok(None) => return Ok(()),
        Err(fault) => return Err(TraceFault::Line { line, fault }),
    };
    let task = match task_of(files, said.file) {
        Ok(task) => task,
        Err(TaskFault::NoMemory) => return Err(slot_types::Refusal::NoMemory.into()),
        Err(TaskFault::Files) => {
            let fault = LineFault::Files;
            return Err(TraceFault::Line { line, fault });
        }
    };
    let request = match request_of(&said, line, task, slot_us, due) {
        Ok(request) => request,
        Err(fault) => return Err(TraceFault::Line { line, fault }),
    };
    requests.reserve(1)?;
    requests.push_reserved(request);
    Ok(())
}

/// The requests of a trace, where a slot takes `slot_us` microseconds, and each is due `due` slots after it came.
pub(crate) fn trace_of(
    alloc: Global,
    text: &[u8],
    slot_us: u32,
    due: u32,
) -> Result<Trace, TraceFault> {
    let Ok(text) = str::from_utf8(text) else {
        return Err(TraceFault::NotText);
    };
    let mut requests = Vec::new(alloc);
    let mut files: Vec<&str> = Vec::new(alloc);
    let mut number: u32 = 0;
    for line in text.lines() {
        number = number.saturating_add(1);
        add_line(&mut requests, &mut files, line, number, slot_us, due)?;
    }
    if requests.is_empty() {
        return Err(TraceFault::Empty);
    }
    Ok(Trace {
        requests,
        tasks: u32::try_from(files.len()).unwrap_or(u32::MAX),
    })
}
