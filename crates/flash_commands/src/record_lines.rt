//! In which line of a file a record of CSV begins, and what it has.

use std::alloc::Global;
use std::io::Read;

/// The most bytes of a record that are kept: those of a row of 64 writes.
const KEPT: usize = 4_096;

/// A record, and the line in which it begins, from 1.
#[derive(Drop)]
pub struct Record {
    pub line: u64,
    /// Its text, without its end; at most 4,096 bytes of it.
    pub text: Vec<u8>,
}

/// How far a text of CSV was read.
#[derive(Clone, Copy, PartialEq, Eq, Debug, Drop)]
struct Walk {
    /// The present line, and how many records began. Blank lines are no records.
    line: u64,
    records: u64,
    /// Whether the present record, its present field, and a quoted part of that began.
    in_record: bool,
    in_field: bool,
    in_quotes: bool,
    /// Whether the byte before ended a quoted part, which another quote goes on with.
    was_quote: bool,
}

impl Walk {
    const START: Walk = Walk {
        line: 1,
        records: 0,
        in_record: false,
        in_field: false,
        in_quotes: false,
        was_quote: false,
    };

    /// Goes on by a byte. Answers whether a record begins with it.
    fn step(&mut self, byte: u8) -> bool {
        let is_end = byte == b'\n' || byte == b'\r';
        let begins = !self.in_record && !is_end;
        if begins {
            self.records = self.records.saturating_add(1);
            self.in_record = true;
        }
        let quoted = self.in_quotes;
        if byte == b'"' && (quoted || !self.in_field || self.was_quote) {
            self.in_quotes = !quoted;
        }
        self.was_quote = byte == b'"' && quoted;
        self.in_field = quoted || byte != b',';
        if is_end && !quoted {
            self.in_record = false;
            self.in_field = false;
        }
        if byte == b'\n' {
            self.line = self.line.saturating_add(1);
        }
        begins
    }
}

/// The line, from 1, in which the record of this number begins, from 1; none where there are fewer, or the reader
/// fails.
pub fn line_of_record<R: Read + Drop>(mut text: R, record: u64) -> Option<u64> {
    let mut walk = Walk::START;
    let mut bytes = [0; 4096];
    for _ in 0..u64::MAX {
        let count = text.read(&mut bytes).ok()?;
        let read = bytes.get(..count)?;
        if read.is_empty() {
            return None;
        }
        for byte in read {
            if walk.step(*byte) && walk.records == record {
                return Some(walk.line);
            }
        }
    }
    None
}

/// Goes on through a text by bytes that were read. Answers whether the record ended.
fn walk_on(walk: &mut Walk, number: u64, read: &[u8], found: &mut Record) -> Option<bool> {
    for byte in read {
        if walk.step(*byte) && walk.records == number {
            found.line = walk.line;
        }
        if walk.records == number {
            if !walk.in_record {
                return Some(true);
            }
            if found.text.len() < KEPT {
                found.text.push(*byte).ok()?;
            }
        }
    }
    Some(false)
}

/// The record of this number, from 1; none where there are fewer, the reader fails, or memory runs out.
pub fn record_of<R: Read + Drop>(alloc: Global, mut text: R, number: u64) -> Option<Record> {
    let mut walk = Walk::START;
    let mut bytes = [0; 4096];
    let mut found = Record {
        line: 0,
        text: Vec::new(alloc),
    };
    for _ in 0..u64::MAX {
        let count = text.read(&mut bytes).ok()?;
        let read = bytes.get(..count)?;
        if read.is_empty() {
            break;
        }
        if walk_on(&mut walk, number, read, &mut found)? {
            break;
        }
    }
    if found.line > 0 { Some(found) } else { None }
}
