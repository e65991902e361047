//! Which option's value is no number within its range.

use crate::values::number_in;
use command_arguments::value_at;

/// The options that have a number from 0 to 1,048,576. The last two are files but for `draw` and `compare`.
const NUMBERS: [&str; 16] = [
    "--slots",
    "--seed",
    "--jitter",
    "--load",
    "--die",
    "--pool",
    "--task",
    "--endurance",
    "--slot-us",
    "--page-bytes",
    "--due",
    "--lives",
    "--at",
    "--looks",
    "--from",
    "--to",
];

/// How many of these never name a file.
const NEVER_FILES: usize = 14;

/// The options that have a number in these words.
fn numbers_in(words: &[String]) -> &'static [&'static str] {
    match words.get(1) {
        Some(command) if command.as_str() == "draw" || command.as_str() == "compare" => &NUMBERS,
        _ => &NUMBERS[..NEVER_FILES],
    }
}

/// The first option in the words whose value is no number from 0 to 1,048,576, and that value.
pub(crate) fn bad_number(words: &[String]) -> Option<(&'static str, &str)> {
    for place in 0..words.len() {
        for option in numbers_in(words) {
            if let Some(value) = value_at(words, place, option)
                && number_in(value).is_none()
            {
                return Some((*option, value));
            }
        }
    }
    None
}
