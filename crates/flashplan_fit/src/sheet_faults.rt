//! What is wrong with the text of a datasheet.

use crate::decimals::Decimal;
use std::fmt;
use std::fmt::{Display, Formatter, Write};

/// A line and a column of a text, both from 1. A column counts characters.
#[derive(Clone, Copy, PartialEq, Eq, Debug, Drop)]
pub struct Position {
    pub line: u64,
    pub column: u64,
}

impl Display for Position {
    fn fmt<W: Write>(&self, f: &mut Formatter<W>) -> fmt::Result {
        let (line, column) = (self.line, self.column);
        write!(f, "line {line}, column {column}: ")
    }
}

/// Where a key stands or is missing.
#[derive(Clone, Copy, PartialEq, Eq, Debug, Drop)]
pub enum Level {
    Top,
    /// The `[[task]]` of this place in the text, the first being 1.
    Task(u32),
}

impl Display for Level {
    fn fmt<W: Write>(&self, f: &mut Formatter<W>) -> fmt::Result {
        match self {
            Level::Top => f.write_str("the datasheet"),
            Level::Task(nth) => write!(f, "[[task]] {nth}"),
        }
    }
}

/// What is wrong with the text of a datasheet.
#[derive(Drop)]
pub enum Wrong {
    /// It isn't TOML, in the words of the reader of TOML.
    NotToml(String),
    NotUtf8,
    /// A key isn't there, or its number is out of its range.
    Number {
        level: Level,
        key: &'static str,
        least: u32,
        most: u32,
    },
    /// A key isn't there, or its number is out of its range, or finer than parts of its unit.
    Time {
        level: Level,
        key: &'static str,
        least: Decimal,
        most: Decimal,
    },
    /// It isn't said how many erases are suspended at a time.
    Suspends,
    /// A task has a key that doesn't go with its others.
    Kinds {
        nth: u32,
        key: String,
    },
    /// There is a key beside those of a datasheet.
    UnknownKey {
        level: Level,
        key: String,
    },
    /// There have to be 1 to 16 tasks.
    Tasks,
    /// A job has 1 to 64 operations.
    Work {
        nth: u32,
    },
}

/// Writes which range a number has, and how many decimals.
fn put_time<W: Write>(
    f: &mut Formatter<W>,
    level: Level,
    key: &str,
    least: Decimal,
    most: Decimal,
) -> fmt::Result {
    let decimals = match most.unit {
        1 => return write!(
            f,
            "{level} needs `{key}`, a whole number from {least} to {most}"
        ),
        1_000 => 3,
        _ => 6,
    };
    write!(
        f,
        "{level} needs `{key}`, a number from {least} to {most} with at most {decimals} decimals"
    )
}

impl Display for Wrong {
    fn fmt<W: Write>(&self, f: &mut Formatter<W>) -> fmt::Result {
        match self {
            Wrong::NotToml(message) => write!(f, "the datasheet isn't TOML: {message}"),
            Wrong::NotUtf8 => f.write_str("the datasheet isn't UTF-8"),
            Wrong::Number {
                level,
                key,
                least,
                most,
            } => {
                write!(
                    f,
                    "{level} needs `{key}`, a whole number from {least} to {most}"
                )
            }
            Wrong::Time {
                level,
                key,
                least,
                most,
            } => put_time(f, *level, key, *least, *most),
            Wrong::Suspends => {
                f.write_str("the datasheet needs `suspends` as \"any\", \"one\" or \"none\"")
            }
            Wrong::Kinds { nth, key } => {
                let key = key.as_str().escape_debug();
                write!(
                    f,
                    "[[task]] {nth} has the key `{key}`, and a task has `period_ms`, `reads` and `writes`, or \
                     `burst_pages` and `at_most_once_in_s`, or `pages_per_s`"
                )
            }
            // A quoted key may hold a line's end, and a sentence is a line.
            Wrong::UnknownKey { level, key } => {
                let key = key.as_str().escape_debug();
                write!(f, "{level} has the key `{key}`, which no datasheet has")
            }
            Wrong::Tasks => f.write_str("the datasheet needs 1 to 16 [[task]]"),
            Wrong::Work { nth } => {
                write!(
                    f,
                    "[[task]] {nth}: `reads` and `writes` have to sum to 1 to 64"
                )
            }
        }
    }
}

/// What is wrong with the text of a datasheet, and where, as far as that is known.
#[derive(Drop)]
pub struct SheetFault {
    pub at: Option<Position>,
    pub wrong: Wrong,
}

impl Display for SheetFault {
    fn fmt<W: Write>(&self, f: &mut Formatter<W>) -> fmt::Result {
        if let Some(at) = &self.at {
            write!(f, "{at}")?;
        }
        let wrong = &self.wrong;
        write!(f, "{wrong}")
    }
}
