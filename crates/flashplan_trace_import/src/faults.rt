//! Why traces aren't taken.

use slot_types::Refusal;
use std::alloc::AllocError;
use std::fmt;
use std::fmt::{Display, Formatter, Write};

/// What is wrong with a line of a trace.
#[derive(Clone, Copy, PartialEq, Eq, Debug, Drop)]
pub enum LineFault {
    /// Another version than 3.
    Version,
    /// Neither `time file action` nor `time file action offset length`.
    Fields,
    /// An action that isn't known.
    Action,
    /// A time, an offset or a length that is no number.
    Number,
    /// A request of no page, or of more than a job's 64.
    Pages { pages: u64 },
    /// A slot whose job would be due after 1,048,576.
    Slot { slot: u64 },
    /// A 17th file: a die has 16 tasks.
    Files,
    /// With its job and the collections there are more than 65,536.
    Jobs,
}

/// Why a trace isn't taken.
#[derive(Clone, Copy, PartialEq, Eq, Debug, Drop)]
pub enum TraceFault {
    Refused(Refusal),
    /// It isn't UTF-8.
    NotText,
    /// Of a line, the first being 1.
    Line { line: u32, fault: LineFault },
    /// It has no request, or there is no trace.
    Empty,
    /// A die would need more than 1,024 blocks: this trace has most pages.
    Blocks { blocks: u64 },
    /// It is the ninth: a store has 8 dies.
    Dies,
}

/// Why traces aren't taken.
#[derive(Clone, Copy, PartialEq, Eq, Debug, Drop)]
pub struct ImportFault {
    /// Which trace is at fault, the first being 0, as its die; 0 where none is.
    pub die: u32,
    pub fault: TraceFault,
}

impl From<Refusal> for ImportFault {
    fn from(refusal: Refusal) -> ImportFault {
        ImportFault {
            die: 0,
            fault: TraceFault::Refused(refusal),
        }
    }
}

impl From<AllocError> for ImportFault {
    fn from(_error: AllocError) -> ImportFault {
        ImportFault {
            die: 0,
            fault: TraceFault::Refused(Refusal::NoMemory),
        }
    }
}

impl From<Refusal> for TraceFault {
    fn from(refusal: Refusal) -> TraceFault {
        TraceFault::Refused(refusal)
    }
}

impl From<AllocError> for TraceFault {
    fn from(_error: AllocError) -> TraceFault {
        TraceFault::Refused(Refusal::NoMemory)
    }
}

impl Display for LineFault {
    fn fmt<W: Write>(&self, f: &mut Formatter<W>) -> fmt::Result {
        match *self {
            LineFault::Version => f.write_str("only version 3 of fio's logs is read"),
            LineFault::Fields => {
                f.write_str(
                    "a line is `time file action`, and of a request `offset length` after it",
                )
            }
            LineFault::Action => f.write_str(
                "the action is none of read, write, trim, add, open, close, sync, datasync",
            ),
            LineFault::Number => f.write_str("the time, the offset or the length is no number"),
            LineFault::Pages { pages } => write!(
                f,
                "the request is of {pages} pages of 4096 bytes, and a job has 1 to 64"
            ),
            LineFault::Slot { slot } => {
                write!(f, "it comes in slot {slot}, and has to be due by 1048576")
            }
            LineFault::Files => f.write_str("it is of a 17th file, and a die has 16 tasks"),
            LineFault::Jobs => {
                f.write_str("with it there are more than 65536 jobs and collections")
            }
        }
    }
}

impl Display for TraceFault {
    fn fmt<W: Write>(&self, f: &mut Formatter<W>) -> fmt::Result {
        match *self {
            TraceFault::Refused(refusal) => write!(f, "{refusal}"),
            TraceFault::NotText => f.write_str("the trace isn't UTF-8"),
            TraceFault::Line { line, fault } => write!(f, "line {line}: {fault}"),
            TraceFault::Empty => f.write_str("the trace has no read, write or trim"),
            TraceFault::Blocks { blocks } => write!(
                f,
                "its pages need a die of {blocks} blocks, and one has 1024 at most"
            ),
            TraceFault::Dies => f.write_str("it is a ninth trace, and a store has 1 to 8 dies"),
        }
    }
}
