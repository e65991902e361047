//! A writer that keeps what it passes on.

use std::io::Write;
use std::{io, str};

/// The most bytes that are kept.
const KEPT: usize = 512;

/// A writer that passes on what it gets, and keeps the front of it. It clears the line first where one of a terminal
/// may show progress.
#[derive(Drop)]
pub struct Heard<W> {
    to: W,
    clears: bool,
    kept: [u8; KEPT],
    count: usize,
    /// How many of these are whole lines.
    whole: usize,
}

impl<W: Write> Heard<W> {
    /// Nothing was written yet. `clears` says whether the line is cleared before the first write.
    pub fn new(to: W, clears: bool) -> Heard<W> {
        Heard {
            to,
            clears,
            kept: [0; KEPT],
            count: 0,
            whole: 0,
        }
    }

    /// The whole lines among the first 512 bytes that were taken; none where these aren't UTF-8.
    pub fn lines(&self) -> &str {
        match self.kept.get(..self.whole) {
            Some(kept) => str::from_utf8(kept).unwrap_or(""),
            None => "",
        }
    }

    /// Keeps a byte, if there is room.
    fn keep(&mut self, byte: u8) {
        let Some(place) = self.kept.get_mut(self.count) else {
            return;
        };
        *place = byte;
        self.count = self.count.saturating_add(1);
        if byte == b'\n' {
            self.whole = self.count;
        }
    }
}

/// A write is one of the writer that it was made of, and answers what that one does.
impl<W: Write> Write for Heard<W> {
    fn write(&mut self, buf: &[u8]) -> io::Result<usize> {
        if self.clears {
            self.clears = false;
            self.to.write_all(b"\x1b[K")?;
        }
        let taken = self.to.write(buf)?;
        for byte in buf.iter().take(taken) {
            self.keep(*byte);
        }
        Ok(taken)
    }

    fn flush(&mut self) -> io::Result<()> {
        self.to.flush()
    }
}
