//! The files that a command writes, kept as a text.

use flashplan_commands::{Shelf, Unput};
use std::alloc::Global;
use std::cell::RefCell;
use std::io;
use std::io::{ErrorKind, Write};

/// The files that were written: each a line with its name, and its text. One whose name begins with `full/` can't be
/// written.
#[derive(Drop)]
pub(crate) struct Shelved {
    files: RefCell<Vec<u8>>,
}

/// Adds a file.
fn add_file(files: &mut Vec<u8>, name: &str, text: &[u8]) -> io::Result<()> {
    writeln!(files, "file {name}:")?;
    files.extend_from_slice(text)?;
    Ok(())
}

impl Shelved {
    pub(crate) fn new(alloc: Global) -> Shelved {
        Shelved {
            files: RefCell::new(Vec::new(alloc)),
        }
    }

    /// Prints all files.
    pub(crate) fn print<W: Write>(&self, out: &mut W) -> io::Result<()> {
        match self.files.try_borrow() {
            Ok(files) => out.write_all(&files),
            Err(_) => Ok(()),
        }
    }
}

impl Shelf for Shelved {
    fn put(&self, name: &str, text: &[u8]) -> Result<(), Unput> {
        if name.starts_with("full/") {
            return Err(Unput::from(io::Error::from(ErrorKind::StorageFull)));
        }
        match self.files.try_borrow_mut() {
            Ok(mut files) => Ok(add_file(&mut files, name, text)?),
            Err(_) => Err(Unput::NoMemory),
        }
    }

    /// Two names are of one file where they are spelled as one.
    fn is_one(&self, one: &str, other: &str) -> bool {
        one == other
    }
}
