//! Where the texts of commands are put: files, by their names.

use slot_types::Refusal;
use std::alloc::{AllocError, Global};
use std::cell::RefCell;
use std::io;
use std::io::{ErrorKind, Write};
use thiserror::Error;

/// Standard output, by the name that it has as a file.
pub const STDOUT: &str = "/dev/stdout";

/// Why a text wasn't put into a file. The file has what it had, but for `Cut`.
#[derive(Debug, Drop, Error)]
pub enum Unput {
    #[error("memory ran out")]
    NoMemory,
    #[error("it is a directory; name a file")]
    Folder,
    /// The file is of a user or a group that a file in its place couldn't be given to.
    #[error("nothing was written to it: it is another user's or group's, and a file in its place wouldn't be; name another file, or use > of the shell")]
    NotOwned,
    /// A device or a pipe took a front of the text, and not the whole.
    #[error("not the whole text was written to it: {0}")]
    Cut(io::Error),
    #[error("nothing was written to it: {0}")]
    Failed(io::Error),
}

impl From<io::Error> for Unput {
    fn from(error: io::Error) -> Unput {
        if error.kind() == ErrorKind::OutOfMemory {
            Unput::NoMemory
        } else {
            Unput::Failed(error)
        }
    }
}

impl From<AllocError> for Unput {
    fn from(_: AllocError) -> Unput {
        Unput::NoMemory
    }
}

impl Unput {
    /// What it is reported as.
    pub fn refusal(&self) -> Refusal {
        match self {
            Unput::NoMemory => Refusal::NoMemory,
            _ => Refusal::WriteFault,
        }
    }
}

/// Where texts are put, by the names of files.
pub trait Shelf {
    /// Puts a text into the file of a name, whole, in place of what it had; where that fails it has what it had. Where a
    /// link stands there the file is the one that it leads to, which keeps its owner and its mode. What is no file, as a
    /// device or a pipe, gets the text as it is, and may have got a front of it where that fails, which is `Cut`.
    fn put(&self, name: &str, text: &[u8]) -> Result<(), Unput>;

    /// Whether two names are of one file, however they are spelled, and whether it is there yet or not. A terminal is as
    /// many as there are names of it.
    fn is_one(&self, one: &str, other: &str) -> bool;
}

/// Reports why a text wasn't put into the file of a name. A writer that fails is passed over.
pub fn report_unput<E: Write>(err: &mut E, name: &str, unput: &Unput) {
    let refusal = unput.refusal();
    let _ = writeln!(err, "error {} {refusal}: {name:?}", refusal.number());
    let _ = writeln!(err, "{name}: {unput}");
}

/// A shelf that keeps the text of one file, to be put later.
#[derive(Drop)]
pub struct Later {
    alloc: Global,
    text: RefCell<Option<Vec<u8>>>,
}

impl Later {
    /// No text was put.
    pub fn new(alloc: Global) -> Later {
        Later {
            alloc,
            text: RefCell::new(None),
        }
    }

    /// The text that was put, if one was.
    pub fn text(self) -> Option<Vec<u8>> {
        self.text.into_inner()
    }
}

/// It takes each text, whatever the name, and keeps the last.
impl Shelf for Later {
    fn put(&self, _name: &str, text: &[u8]) -> Result<(), Unput> {
        let text = Vec::from_slice(self.alloc, text)?;
        match self.text.try_borrow_mut() {
            Ok(mut kept) => {
                *kept = Some(text);
                Ok(())
            }
            Err(_) => Err(Unput::NoMemory),
        }
    }

    fn is_one(&self, one: &str, other: &str) -> bool {
        one == other
    }
}
