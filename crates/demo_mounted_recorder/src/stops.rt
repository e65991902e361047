//! Why the recorder stops early.

ghost use Rattle.std.specs.Prelude.{◌≡◌, None};

use clean_shutdown::StartRefusal;
use file_nand::{NoCellFile, OpenRefusal};
use ongoing_die::{AskStop, OngoingResumeRefusal, SlotStop};
use slot_core::CheckpointRefusal;
use slot_types::Refusal;
use std::alloc::AllocError;
use std::fmt::{Display, Formatter, Write};
use std::{fmt, io};

/// Why the recorder stops early.
#[derive(Drop)]
pub(crate) enum Stop {
    /// The words after the program's name are others.
    Words,
    NoMemory,
    /// The file can't be read or written, or nothing can be printed.
    Fault(io::Error),
    /// The file has something else.
    OtherFile,
    NotStarted(StartRefusal),
    NoCheckpoint(CheckpointRefusal),
    NotResumed(OngoingResumeRefusal),
    /// A task isn't given what its plan lets it have.
    NotAsked(AskStop),
    /// The die carries out no slot, and its power is there.
    NoSlot(SlotStop),
    /// The pages aren't read within a period of the reader.
    NotRead,
    /// A page has bytes that weren't written there.
    Strange { page: u32 },
    /// A page has neither its last finished write nor the one after it.
    Lost { page: u32, number: u64, done: u64 },
    /// Its tasks ask for nothing, and still the die isn't at rest.
    NotQuiet,
    NotSaved(Refusal),
    /// The power didn't go where it should.
    NotCut,
}

impl From<Refusal> for Stop {
    fn from(refusal: Refusal) -> Stop {
        // Lists are made for a plan, and nothing else is refused.
        let _ = refusal;
        Stop::NoMemory
    }
}

impl From<AllocError> for Stop {
    fn from(_: AllocError) -> Stop {
        Stop::NoMemory
    }
}

impl From<io::Error> for Stop {
    fn from(error: io::Error) -> Stop {
        Stop::Fault(error)
    }
}

impl From<NoCellFile> for Stop {
    fn from(why: NoCellFile) -> Stop {
        match why {
            NoCellFile::OtherFile => Stop::OtherFile,
            NoCellFile::Fault(error) => Stop::Fault(error),
        }
    }
}

impl From<OpenRefusal> for Stop {
    fn from(why: OpenRefusal) -> Stop {
        match why {
            OpenRefusal::Fault(error) => Stop::Fault(error),
            // The shape is a constant within its limits.
            OpenRefusal::BadShape | OpenRefusal::NoMemory => Stop::NoMemory,
        }
    }
}

impl Display for Stop {
    ghost output = { λ _. None };

    fn fmt<W: Write>(&self, f: &mut Formatter<W>) -> fmt::Result {
        match self {
            Stop::Words => write!(f, "FILE, or FILE LIVES SEED, is wanted"),
            Stop::NoMemory => write!(f, "there is no memory"),
            Stop::Fault(error) => write!(f, "{error}"),
            Stop::OtherFile => write!(f, "the file has something else"),
            Stop::NotStarted(why) => write!(f, "no die is started: {why:?}"),
            Stop::NoCheckpoint(why) => write!(f, "no checkpoint is taken: {why:?}"),
            Stop::NotResumed(why) => write!(f, "the die doesn't go on: {why:?}"),
            Stop::NotAsked(why) => write!(f, "a task is refused: {why:?}"),
            Stop::NoSlot(why) => write!(f, "a slot isn't carried out: {why:?}"),
            Stop::NotRead => write!(f, "the pages aren't read in time"),
            Stop::Strange { page } => write!(f, "page {page} has bytes that nobody wrote"),
            Stop::Lost { page, number, done } => {
                write!(
                    f,
                    "page {page} has write {number}, and write {done} was done"
                )
            }
            Stop::NotQuiet => write!(f, "the die comes to no rest"),
            Stop::NotSaved(why) => write!(f, "the checkpoint isn't saved: {why:?}"),
            Stop::NotCut => write!(f, "the power didn't go"),
        }
    }
}
