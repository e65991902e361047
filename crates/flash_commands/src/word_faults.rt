//! Which number of the words is none, or out of its range.

use crate::run_numbers::{Slots, Workers};
use command_arguments::value_in;
use slot_types::{MAX_SLOT, MAX_WORKERS};
use std::alloc::{AllocError, Global};
use text_base::number;

/// Whether a text is a number of slots, and one of workers.
fn is_slots(text: &str) -> bool {
    match number(text.as_bytes()) {
        Some(count) => Slots::new(count).is_some(),
        None => false,
    }
}

fn is_workers(text: &str) -> bool {
    match number(text.as_bytes()) {
        Some(count) => Workers::new(count).is_some(),
        None => false,
    }
}

/// What is reported of words one of whose numbers is none, or out of its range.
pub(crate) fn reported_of(alloc: Global, words: &[String]) -> Result<String, AllocError> {
    match (value_in(words, "--slots"), value_in(words, "--workers")) {
        (Some(slots), _) if !is_slots(slots) => format!(in alloc;
            "--slots is {slots:?}, and has to be a whole number from 0 to {MAX_SLOT}"
        ),
        (_, Some(workers)) if !is_workers(workers) => format!(in alloc;
            "--workers is {workers:?}, and has to be a whole number from 1 to {MAX_WORKERS}"
        ),
        _ => format!(in alloc;
            "--slots has to be a whole number from 0 to {MAX_SLOT}, --workers one from 1 to {MAX_WORKERS}"
        ),
    }
}
