//! Files that a request names twice, of which it would write one over the other.

use crate::shelves::{STDOUT, Shelf};
use flash_commands::{Texts, path_of};
use flashplan_words::{Asked, Command, Request};
use std::fmt;
use std::fmt::{Display, Formatter};

/// A file that is named, and what it is to the command.
#[derive(Clone, Copy, Drop)]
struct Named<'a> {
    called: &'static str,
    name: &'a str,
}

impl Display for Named<'_> {
    fn fmt<W: fmt::Write>(&self, f: &mut Formatter<W>) -> fmt::Result {
        match (self.called, self.name) {
            ("-o", "-") => f.write_str("standard output"),
            (called, name) => write!(f, "{called} {name}"),
        }
    }
}

/// Two names of one file, one of which would be written over the other.
#[derive(Clone, Copy, Drop)]
pub(crate) struct Clash<'a> {
    written: Named<'a>,
    other: Named<'a>,
}

impl Display for Clash<'_> {
    fn fmt<W: fmt::Write>(&self, f: &mut Formatter<W>) -> fmt::Result {
        let (written, other) = (self.written, self.other);
        write!(
            f,
            "{written} and {other} are one file: name another for one of them"
        )
    }
}

/// Where a file of a name is written: `-` is standard output.
pub fn written_path(name: &str) -> &str {
    if name == "-" { STDOUT } else { name }
}

/// The file that gets a checkpoint, if one does.
pub(crate) fn saved_to<'a>(request: &Request<'a>) -> Option<&'a str> {
    match request {
        Request::One(Command::Run { to, .. } | Command::Cut { to, .. }) => *to,
        Request::One(Command::Fill { to, .. }) => Some(*to),
        _ => None,
    }
}

/// A file that is written and one that is read, if they are one.
fn read_and_written<'a, K: Shelf>(
    shelf: &K,
    written: Named<'a>,
    called: &'static str,
    read: Option<&'a str>,
) -> Option<Clash<'a>> {
    let name = read?;
    if shelf.is_one(written_path(written.name), path_of(name)) {
        let other = Named { called, name };
        Some(Clash { written, other })
    } else {
        None
    }
}

/// The first of several files that are read which is written, too.
fn among<'a, K: Shelf>(
    shelf: &K,
    written: Named<'a>,
    called: &'static str,
    read: &'a [&'a str],
) -> Option<Clash<'a>> {
    for name in read {
        let clash = read_and_written(shelf, written, called, Some(*name));
        if clash.is_some() {
            return clash;
        }
    }
    None
}

/// A file that is written, and of the plan and the script the one that it is.
fn over_texts<'a, K: Shelf>(shelf: &K, written: Named<'a>, texts: Texts<'a>) -> Option<Clash<'a>> {
    let plan = read_and_written(shelf, written, "the plan", texts.plan);
    if plan.is_some() {
        return plan;
    }
    read_and_written(shelf, written, "the script", texts.script)
}

/// The output of a command, and which of its other files it is.
fn over_others<'a, K: Shelf>(shelf: &K, written: Named<'a>, texts: Texts<'a>) -> Option<Clash<'a>> {
    let others = [
        over_texts(shelf, written, texts),
        read_and_written(shelf, written, "the checkpoint", texts.checkpoint),
        read_and_written(shelf, written, "the datasheet", texts.sheet),
        among(shelf, written, "the report", texts.reports),
        among(shelf, written, "the trace", texts.traces),
    ];
    for clash in others {
        if clash.is_some() {
            return clash;
        }
    }
    None
}

/// Two names of a request that are of one file, which it would write over. A checkpoint may be put in the place of the
/// one from which its dies go on.
pub(crate) fn clash_in<'a, K: Shelf>(
    shelf: &K,
    asked: &Asked<'a>,
    texts: Texts<'a>,
) -> Option<Clash<'a>> {
    let written = Named {
        called: "-o",
        name: asked.output,
    };
    if let Some(name) = saved_to(&asked.request) {
        let other = Named {
            called: "--to",
            name,
        };
        if shelf.is_one(written_path(asked.output), written_path(name)) {
            return Some(Clash { written, other });
        }
        let clash = over_texts(shelf, other, texts);
        if clash.is_some() {
            return clash;
        }
    }
    over_others(shelf, written, texts)
}
