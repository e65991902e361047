//! Readers that show on a terminal how far they are, at most ten times a second.

ghost use Rattle.std.specs.Prelude.{◌≤◌};

use crate::files::{Folder, path_of};
use slot_types::Refusal;
use std::env::Env;
use std::io::Read;
use std::rt::{Clock, Files};
use std::time::Instant;
use std::{fs, io};

/// What is shown of a file while it is read.
#[derive(Clone, Copy, PartialEq, Eq, Debug, Drop)]
pub enum Shown {
    Nothing,
    /// How many bytes were read.
    Bytes,
    /// Of a script the slot of its last row and the number of its rows, where `all` slots are run.
    Slots { all: u32 },
}

/// Whether a terminal may be told to clear a line, as it is between two texts: not where TERM says that it is dumb.
pub fn clears_lines<R: Env>(rt: &R) -> bool {
    let mut name = [0; 5];
    match rt.var("TERM", &mut name) {
        Ok(4) => name != *b"dumb\0",
        _ => true,
    }
}

/// The least milliseconds between two texts.
const PAUSE: u128 = 100;

/// How many bytes of a script are read at once where it is shown how far it is run: a few rows.
const AT_ONCE: usize = 512;

/// The files of the system, whose readers show how far they are; `-` is standard input. Nothing is known of what they
/// hold.
#[derive(Clone, Copy)]
pub struct WatchedDisk<'a, R: Files + Clock + Eprint> {
    rt: &'a R,
    shown: Shown,
}

impl<'a, R: Files + Clock + Eprint> WatchedDisk<'a, R> {
    /// The files that `rt` opens.
    pub fn new(rt: &'a R, shown: Shown) -> WatchedDisk<'a, R> {
        WatchedDisk { rt, shown }
    }
}

impl<'a, R: Files + Clock + Eprint> Folder for WatchedDisk<'a, R> {
    type Reader = Watched<'a, R, R::File>;

    fn open(&self, name: &str) -> Result<Watched<'a, R, R::File>, Refusal> {
        match fs::open(self.rt, path_of(name)) {
            Ok(file) => Ok(Watched::new(self.rt, file, self.shown)),
            Err(_) => Err(Refusal::ReadFault),
        }
    }
}

/// How far a script was read. Its rows are taken for lines here, and a quoted field for none that is a number.
#[derive(Clone, Copy, PartialEq, Eq, Debug, Drop)]
struct Place {
    /// The slot of the last row that has one, and how many rows ended.
    slot: u32,
    rows: u64,
    /// The first field of the present row, while it is read and is a number.
    field: Option<u32>,
}

impl Place {
    const START: Place = Place {
        slot: 0,
        rows: 0,
        field: Some(0),
    };

    fn step(&mut self, byte: u8) {
        match byte {
            b'\n' => {
                self.rows = self.rows.saturating_add(1);
                self.field = Some(0);
            }
            b',' => {
                if let Some(slot) = self.field {
                    self.slot = slot;
                }
                self.field = None;
            }
            b'0'..=b'9' => {
                if let Some(field) = self.field {
                    let digit = u32::from(byte.saturating_sub(b'0'));
                    self.field = Some(field.saturating_mul(10).saturating_add(digit));
                }
            }
            _ => self.field = None,
        }
    }
}

/// A reader that shows how far it is. What it reads is what the file has; a clock that fails shows nothing.
#[derive(Drop)]
pub struct Watched<'a, R: Clock + Eprint, F> {
    rt: &'a R,
    file: F,
    shown: Shown,
    /// When it was made, and when it showed last.
    begun: Option<Instant>,
    said: Option<Instant>,
    bytes: u64,
    place: Place,
}

impl<'a, R: Clock + Eprint, F> Watched<'a, R, F> {
    /// Nothing was read of `file` yet. The first text comes after a tenth of a second at the earliest.
    pub fn new(rt: &'a R, file: F, shown: Shown) -> Watched<'a, R, F> {
        let begun = if shown == Shown::Nothing {
            None
        } else {
            Instant::now(rt).ok()
        };
        Watched {
            rt,
            file,
            shown,
            begun,
            said: begun,
            bytes: 0,
            place: Place::START,
        }
    }

    /// About how many seconds are left, at slot `slot` of `all`; none at slot 0.
    fn seconds_left(&self, now: Instant, slot: u32, all: u32) -> Option<u64> {
        let passed = now.duration_since(self.begun?).as_secs();
        let left = u64::from(all.saturating_sub(slot));
        passed.saturating_mul(left).checked_div(u64::from(slot))
    }

    /// Shows how far it is. The line is cleared, and the next text begins where this one did.
    fn say(&self, now: Instant) {
        let _ = match self.shown {
            Shown::Nothing => Ok(()),
            Shown::Bytes => eprint!(self.rt; "\x1b[K{} bytes were read\r", self.bytes),
            Shown::Slots { all } => {
                let Place { slot, rows, .. } = self.place;
                match self.seconds_left(now, slot, all) {
                    Some(left) => eprint!(self.rt;
                        "\x1b[Kslot {slot} of {all}, {rows} rows, about {left} s left\r"
                    ),
                    None => eprint!(self.rt; "\x1b[K{rows} rows\r"),
                }
            }
        };
    }

    /// Counts what was read, and shows it where a tenth of a second has passed since it was shown last.
    fn note(&mut self, read: &[u8]) {
        let Some(said) = self.said else {
            return;
        };
        self.bytes = self.bytes.saturating_add(read.len() as u64);
        if let Shown::Slots { .. } = self.shown {
            for byte in read {
                self.place.step(*byte);
            }
        }
        let Ok(now) = Instant::now(self.rt) else {
            return;
        };
        if now.duration_since(said).as_millis() >= PAUSE {
            self.said = Some(now);
            self.say(now);
        }
    }

    /// How many of `len` bytes are read at once.
    fn at_once(&self, len: usize) -> usize
        ensures { result ≤ len }
    {
        match self.shown {
            Shown::Slots { .. } => len.min(AT_ONCE),
            _ => len,
        }
    }

    /// Clears the line, where something was shown.
    fn end(&self) {
        if self.said != self.begun {
            let _ = eprint!(self.rt; "\x1b[K");
        }
    }
}

/// Reads what the file has.
impl<R: Clock + Eprint, F: Read> Read for Watched<'_, R, F> {
    fn read(&mut self, buf: &mut [u8]) -> io::Result<usize> {
        let most = self.at_once(buf.len());
        let count = self.file.read(&mut buf[..most])?;
        match buf.get(..count) {
            Some([]) | None => self.end(),
            Some(read) => self.note(read),
        }
        Ok(count)
    }
}
