//! The files of the system, one of which has another text.

use flash_commands::{Disk, Folder};
use slot_types::Refusal;
use std::io;
use std::io::Read;
use std::rt::Files;

/// A file of the system, or a text.
#[derive(Drop)]
pub(crate) enum Given<'a, F> {
    File(F),
    Text(&'a [u8]),
}

impl<F: Read> Read for Given<'_, F> {
    fn read(&mut self, buf: &mut [u8]) -> io::Result<usize> {
        match self {
            Given::File(file) => file.read(buf),
            Given::Text(text) => text.read(buf),
        }
    }
}

/// The files of the system; but the one of this name has this text.
#[derive(Clone, Copy)]
pub(crate) struct Changed<'a, R: Files> {
    disk: Disk<'a, R>,
    name: &'a str,
    text: &'a [u8],
}

impl<'a, R: Files> Changed<'a, R> {
    pub(crate) fn new(files: &'a R, name: &'a str, text: &'a [u8]) -> Changed<'a, R> {
        Changed {
            disk: Disk::new(files),
            name,
            text,
        }
    }
}

impl<'a, R: Files> Folder for Changed<'a, R> {
    type Reader = Given<'a, R::File>;

    fn open(&self, name: &str) -> Result<Given<'a, R::File>, Refusal> {
        if self.name == name {
            return Ok(Given::Text(self.text));
        }
        let file = self.disk.open(name)?;
        Ok(Given::File(file))
    }
}
