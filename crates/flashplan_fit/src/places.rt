//! Where a datasheet's faults lie in its text.

use crate::sheet_faults::{Level, Position, Wrong};

/// Whether a line gives a key its value.
fn gives(line: &str, key: &str) -> bool {
    match line.strip_prefix(key) {
        Some(rest) => rest.trim_start().starts_with("="),
        None => false,
    }
}

/// Where a line stands whose first words are these.
fn position(number: u64, line: &str, own: &str) -> Position {
    let before = line.len().saturating_sub(own.len());
    Position {
        line: number,
        column: (before as u64).saturating_add(1),
    }
}

/// Where a task begins, and, if there is one, where it, or the top table, has a key. Lines are looked at alone.
fn found_places(text: &str, level: Level, key: &str) -> (Option<Position>, Option<Position>) {
    let (mut number, mut tasks) = (0u64, 0u32);
    let mut begins = None;
    for line in text.lines() {
        number = number.saturating_add(1);
        let own = line.trim_start();
        if own.starts_with("[[") {
            tasks = tasks.saturating_add(1);
        }
        let is_here = match level {
            Level::Top => tasks == 0,
            Level::Task(nth) => tasks == nth,
        };
        if is_here && own.starts_with("[[") {
            begins = Some(position(number, line, own));
        }
        if is_here && gives(own, key) {
            return (begins, Some(position(number, line, own)));
        }
    }
    (begins, None)
}

/// Where a key stands; where it isn't there, where its task begins.
fn key_place(text: &str, level: Level, key: &str) -> Option<Position> {
    let (begins, found) = found_places(text, level, key);
    found.or(begins)
}

/// Where a text has this fault, as far as that is known. Keys that are quoted, and tasks on one line, aren't found.
pub fn place_of(text: &str, wrong: &Wrong) -> Option<Position> {
    match wrong {
        Wrong::NotToml(_) | Wrong::NotUtf8 | Wrong::Tasks => None,
        Wrong::Number { level, key, .. } | Wrong::Time { level, key, .. } => {
            key_place(text, *level, key)
        }
        Wrong::Suspends => key_place(text, Level::Top, "suspends"),
        Wrong::Kinds { nth, key } => key_place(text, Level::Task(*nth), key.as_str()),
        Wrong::UnknownKey { level, key } => key_place(text, *level, key.as_str()),
        Wrong::Work { nth } => key_place(text, Level::Task(*nth), "reads"),
    }
}

/// Where a text goes on after its first `bytes` bytes. A column counts characters: each has one byte that continues
/// none.
pub fn place_after(text: &[u8], bytes: usize) -> Position {
    let (mut line, mut column) = (1u64, 1u64);
    for byte in &text[..bytes.min(text.len())] {
        if *byte == b'\n' {
            line = line.saturating_add(1);
            column = 1;
        } else if *byte & 0xC0 != 0x80 {
            column = column.saturating_add(1);
        }
    }
    Position { line, column }
}
