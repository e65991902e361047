//! Faults of a plan's table, in sentences.

use crate::ranges::range_of;
use slot_types::Cause;
use std::fmt;
use std::fmt::{Display, Formatter, Write};

/// Where a key stands, or is missing.
#[derive(Clone, Copy, PartialEq, Eq, Debug, Drop)]
pub enum Place {
    Top,
    /// The [[task]] of this place in the text, the first being 0.
    Task(usize),
}

impl Display for Place {
    fn fmt<W: Write>(&self, f: &mut Formatter<W>) -> fmt::Result {
        match self {
            Place::Top => f.write_str("it"),
            Place::Task(task) => write!(f, "[[task]] {}", task.saturating_add(1)),
        }
    }
}

/// A fault of a plan's table.
#[derive(Clone, Copy, PartialEq, Eq, Debug, Drop)]
pub enum Fault<'a> {
    /// A key that no plan of the version has in this place.
    Extra {
        place: Place,
        key: &'a str,
        version: u32,
    },
    Missing {
        place: Place,
        key: &'a str,
    },
    /// A value that is no whole number, or far out of its range.
    NotNumber {
        place: Place,
        key: &'a str,
    },
    /// Tasks that are no array of tables.
    NotTables,
    /// No version, beside any other fault: without one the other keys can't be judged.
    NoVersion,
    /// A version that isn't read.
    Version(u32),
}

impl Fault<'_> {
    /// Whether the reader of a plan may name a plan with this fault so. A version that isn't read is reported before
    /// anything that the reader finds.
    pub fn may_be(&self, cause: Cause) -> bool {
        match self {
            Fault::Extra { .. } => cause == Cause::ExtraKey,
            Fault::Missing { .. } => cause == Cause::MissingKey,
            Fault::NotNumber { key, .. } => cause == Cause::WrongKind || *key == "version",
            Fault::NotTables => cause == Cause::WrongKind,
            Fault::NoVersion | Fault::Version(_) => true,
        }
    }
}

impl Display for Fault<'_> {
    fn fmt<W: Write>(&self, f: &mut Formatter<W>) -> fmt::Result {
        match self {
            // A quoted key may hold a line's end, and a sentence is a line.
            Fault::Extra {
                place,
                key,
                version,
            } => {
                let key = key.escape_debug();
                write!(
                    f,
                    "{place} has the key `{key}`, which no plan of version {version} has."
                )
            }
            Fault::Missing { place, key } => write!(f, "{place} has no `{key}`."),
            Fault::NotNumber { place, key } => {
                let range = range_of(key);
                write!(f, "{place} has to have a whole number at `{key}`: {range}.")
            }
            Fault::NotTables => f.write_str("it has to have an array of tables at `task`."),
            Fault::NoVersion => {
                f.write_str("it has no `version`: 1, or 2 where the plan has times.")
            }
            Fault::Version(version) => write!(f, "version is {version}, and has to be 1 or 2."),
        }
    }
}
