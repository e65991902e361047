//! The texts of a table's lines: `~` stands for a line feed, and `^` for a carriage return.

use std::alloc::{AllocError, Global};

/// A text of a line as it is meant.
pub(crate) fn meant(alloc: Global, text: &str) -> Result<String, AllocError> {
    let lines = text.replace(alloc, "~", "\n")?;
    lines.as_str().replace(alloc, "^", "\r")
}

/// A text, `times` times.
fn repeated(alloc: Global, text: &str, times: u32) -> Result<String, AllocError> {
    let mut made = String::new(alloc);
    for _ in 0..times {
        made.push_str(text)?;
    }
    Ok(made)
}

/// What is put in the place of an old text: `COUNT*TEXT` is TEXT, COUNT times.
fn put(alloc: Global, new: &str) -> Result<String, AllocError> {
    if let Some((count, text)) = new.split_once('*') {
        if let Ok(times) = count.parse::<u32>() {
            let text = meant(alloc, text)?;
            return repeated(alloc, text.as_str(), times);
        }
    }
    meant(alloc, new)
}

/// A text with a new text wherever an old one stands: `=` is the whole text, and an empty one its end.
fn replaced(alloc: Global, text: String, old: &str, new: &str) -> Result<String, AllocError> {
    let new = put(alloc, new)?;
    if old == "=" {
        return Ok(new);
    }
    if old.is_empty() {
        let mut text = text;
        text.push_str(new.as_str())?;
        return Ok(text);
    }
    let old = meant(alloc, old)?;
    text.as_str().replace(alloc, old.as_str(), new.as_str())
}

/// A text with the changes `OLD|NEW|OLD|NEW..`, one after the other.
pub(crate) fn changed(alloc: Global, text: String, changes: &str) -> Result<String, AllocError> {
    let mut text = text;
    let mut fields = changes.split('|');
    for _ in 0..changes.len() {
        let (Some(old), Some(new)) = (fields.next(), fields.next()) else {
            break;
        };
        text = replaced(alloc, text, old, new)?;
    }
    Ok(text)
}
