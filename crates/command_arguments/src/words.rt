//! The values of options in the words of a command line, as they stand there.

/// The value that an option has in the word at a place, as `--slots=7`, or in the word after it.
pub fn value_at<'a>(words: &'a [String], place: usize, option: &str) -> Option<&'a str> {
    let rest = words.get(place)?.as_str().strip_prefix(option)?;
    if rest.is_empty() {
        Some(words.get(place.saturating_add(1))?.as_str())
    } else {
        rest.strip_prefix("=")
    }
}

/// The value that an option has in the words, where it stands in them first.
pub fn value_in<'a>(words: &'a [String], option: &str) -> Option<&'a str> {
    for place in 0..words.len() {
        if let Some(value) = value_at(words, place, option) {
            return Some(value);
        }
    }
    None
}
