//! The lines of a table.

use crate::changes::changed;
use crate::folders::Changed;
use crate::plays::{Wanted, wanted_in};
use crate::programs::carry_out;
use std::alloc::Global;
use std::io::Write;
use std::rt::Files;
use std::sync::Wait;
use std::thread::Threads;
use std::{fs, io};

/// How many plays there were, and how many of them ended otherwise than is wanted.
#[derive(Clone, Copy, Drop)]
pub(crate) struct Tally {
    plays: u64,
    wrong: u64,
}

impl Tally {
    pub(crate) fn new() -> Tally {
        Tally { plays: 0, wrong: 0 }
    }

    fn add(&mut self, is_right: bool) {
        self.plays = self.plays.saturating_add(1);
        if !is_right {
            self.wrong = self.wrong.saturating_add(1);
        }
    }

    pub(crate) fn has_wrong(&self) -> bool {
        self.wrong > 0
    }

    pub(crate) fn print<W: Write>(&self, out: &mut W) -> io::Result<()> {
        let (plays, wrong) = (self.plays, self.wrong);
        writeln!(out, "{plays} plays, {wrong} ended otherwise")
    }
}

/// A place of a table, and what stands above it: the command line, and the file that is changed.
#[derive(Clone, Copy, Drop)]
struct Place<'a> {
    table: &'a str,
    line: usize,
    words: &'a str,
    file: &'a str,
}

impl<'a> Place<'a> {
    /// The place above the first line.
    fn above(table: &'a str) -> Place<'a> {
        Place {
            table,
            line: 0,
            words: "",
            file: "",
        }
    }

    /// The place of the next line, which is this one.
    fn at(self, line: &'a str) -> Place<'a> {
        let (mut words, mut file) = (self.words, self.file);
        if let Some(rest) = line.strip_prefix("> ") {
            words = rest;
            file = "";
        } else if let Some(rest) = line.strip_prefix("@ ") {
            file = rest;
        }
        Place {
            table: self.table,
            line: self.line.saturating_add(1),
            words,
            file,
        }
    }
}

/// Plays the command line of a place on a text of its file, and tells where it ends otherwise.
fn play_text<R: Files + Threads + Wait + Sync, W: Write>(
    rt: &R,
    alloc: Global,
    place: Place<'_>,
    wanted: Wanted<'_>,
    text: &str,
    out: &mut W,
) -> io::Result<bool> {
    let folder = Changed::new(rt, place.file, text.as_bytes());
    let ended = carry_out(rt, alloc, &folder, place.words)?;
    let is_right = ended.is(rt, alloc, wanted)?;
    if !is_right {
        writeln!(out, "{}:{}: ended so:", place.table, place.line)?;
        ended.print(out)?;
    }
    Ok(is_right)
}

/// The text of the file that a place changes; none of it where it changes no file.
fn text_of<R: Files>(rt: &R, alloc: Global, place: Place<'_>) -> io::Result<String> {
    if place.file.is_empty() {
        return Ok(String::new(alloc));
    }
    fs::read_to_string(&(rt, alloc), place.file)
}

/// The first and the last of some lengths, as in `1..10`.
fn lengths_in(line: &str) -> Option<(usize, usize, &str)> {
    let (lengths, rest) = line.split_once('|')?;
    let (first, last) = lengths.split_once("..")?;
    Some((first.parse().ok()?, last.parse().ok()?, rest))
}

/// Plays each prefix of a file that has such a length. Answers false where there is none, or a line isn't to be read.
fn play_prefixes<R: Files + Threads + Wait + Sync, W: Write>(
    rt: &R,
    alloc: Global,
    place: Place<'_>,
    (first, last, line): (usize, usize, &str),
    out: &mut W,
    tally: &mut Tally,
) -> io::Result<()> {
    let text = text_of(rt, alloc, place)?;
    for length in first..last.saturating_add(1) {
        let is_right = match (wanted_in(line), text.as_str().get(..length)) {
            (Some((wanted, _)), Some(prefix)) => play_text(rt, alloc, place, wanted, prefix, out)?,
            _ => false,
        };
        tally.add(is_right);
    }
    Ok(())
}

/// Plays a line.
fn play_line<R: Files + Threads + Wait + Sync, W: Write>(
    rt: &R,
    alloc: Global,
    place: Place<'_>,
    line: &str,
    out: &mut W,
    tally: &mut Tally,
) -> io::Result<()> {
    if let Some(lengths) = lengths_in(line) {
        return play_prefixes(rt, alloc, place, lengths, out, tally);
    }
    let Some((wanted, changes)) = wanted_in(line) else {
        writeln!(out, "{}:{}: isn't read", place.table, place.line)?;
        tally.add(false);
        return Ok(());
    };
    let text = changed(alloc, text_of(rt, alloc, place)?, changes)?;
    let is_right = play_text(rt, alloc, place, wanted, text.as_str(), out)?;
    tally.add(is_right);
    Ok(())
}

/// Whether a line is a play.
fn is_play(line: &str) -> bool {
    !line.is_empty() && !line.starts_with('#') && !line.starts_with("> ") && !line.starts_with("@ ")
}

/// Plays the lines of a table.
pub(crate) fn play_table<R: Files + Threads + Wait + Sync, W: Write>(
    rt: &R,
    alloc: Global,
    table: &str,
    text: &str,
    out: &mut W,
    tally: &mut Tally,
) -> io::Result<()> {
    let mut place = Place::above(table);
    for line in text.split('\n') {
        place = place.at(line);
        if is_play(line) {
            play_line(rt, alloc, place, line, out, tally)?;
        }
    }
    Ok(())
}
