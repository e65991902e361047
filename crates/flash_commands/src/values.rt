//! Values of texts and names of files, as they are shown in a message.

use std::fmt;
use std::fmt::{Display, Formatter};

/// The most characters that are shown.
const SHOWN: usize = 40;

/// A value in quotes, without control characters, and the front of one that is long.
#[derive(Clone, Copy, Drop)]
pub(crate) struct ShownValue<'a> {
    text: &'a str,
}

/// A value as it is shown.
pub(crate) fn shown_value(text: &str) -> ShownValue<'_> {
    ShownValue { text }
}

impl Display for ShownValue<'_> {
    fn fmt<W: fmt::Write>(&self, f: &mut Formatter<W>) -> fmt::Result {
        match self.text.char_indices().nth(SHOWN) {
            Some((end, _)) => match self.text.get(..end) {
                Some(front) => write!(f, "{front:?}.."),
                None => write!(f, "{:?}", self.text),
            },
            None => write!(f, "{:?}", self.text),
        }
    }
}

/// The name of a file, as a reader knows it: in quotes where it has control characters.
#[derive(Clone, Copy, Drop)]
pub(crate) struct ShownName<'a> {
    name: &'a str,
}

/// The name of a file as it is shown.
pub(crate) fn shown_name(name: &str) -> ShownName<'_> {
    ShownName { name }
}

impl Display for ShownName<'_> {
    fn fmt<W: fmt::Write>(&self, f: &mut Formatter<W>) -> fmt::Result {
        if self.name == "-" {
            f.write_str("standard input")
        } else if self.name.chars().any(|c| c.is_control()) {
            write!(f, "{:?}", self.name)
        } else {
            f.write_str(self.name)
        }
    }
}

/// A name of a file as a word of a shell: in quotes where it has others than letters, digits and a few signs.
#[derive(Clone, Copy, Drop)]
pub(crate) struct ShownWord<'a> {
    name: &'a str,
}

/// A name as a word of a shell.
pub(crate) fn shown_word(name: &str) -> ShownWord<'_> {
    ShownWord { name }
}

/// Whether a shell takes a character as it is.
fn is_plain(c: char) -> bool {
    c.is_alphanumeric() || matches!(c, '/' | '.' | '_' | '-' | '+' | ',' | ':' | '@' | '%')
}

impl Display for ShownWord<'_> {
    fn fmt<W: fmt::Write>(&self, f: &mut Formatter<W>) -> fmt::Result {
        if self.name.chars().all(is_plain) {
            return f.write_str(self.name);
        }
        f.write_str("'")?;
        for c in self.name.chars() {
            if c == '\'' {
                f.write_str("'\\''")?;
            } else {
                f.write_char(c)?;
            }
        }
        f.write_str("'")
    }
}
