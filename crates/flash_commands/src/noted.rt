//! A writer that notes why it failed.

use std::io;
use std::io::{ErrorKind, Write};

/// A writer that passes on what it gets, and keeps the error of the last write that failed.
#[derive(Drop)]
pub struct Noted<W> {
    to: W,
    error: Option<io::Error>,
}

/// An error like this one, which says no more than its number or its kind.
fn like(error: &io::Error) -> io::Error {
    match error.raw_os_error() {
        Some(code) => io::Error::from_raw_os_error(code),
        None => io::Error::from(error.kind()),
    }
}

impl<W: Write> Noted<W> {
    /// Nothing was written yet.
    pub fn new(to: W) -> Noted<W> {
        Noted { to, error: None }
    }

    /// The error of the last write that failed, if one did, but for one that was interrupted.
    pub fn error(&self) -> Option<&io::Error> {
        self.error.as_ref()
    }
}

/// A write is one of the writer that it was made of, and answers what that one does.
impl<W: Write> Write for Noted<W> {
    fn write(&mut self, buf: &[u8]) -> io::Result<usize> {
        match self.to.write(buf) {
            Err(error) if error.kind() != ErrorKind::Interrupted => {
                self.error = Some(like(&error));
                Err(error)
            }
            done => done,
        }
    }

    fn flush(&mut self) -> io::Result<()> {
        self.to.flush()
    }
}
