//! A line of a history: what is asked, and what has to be answered.

use crate::said::Reported;
use crate::stage::Stage;
use slot_types::Refusal;
use std::alloc::Global;

/// A line's call, and what has to be answered: its last field.
fn halves(line: &str) -> (&str, &str) {
    line.rsplit_once(',').unwrap_or((line, ""))
}

/// Carries out what is asked. A call that finds no memory is made again, where that is to be.
fn carry(
    stage: &mut Stage,
    alloc: Global,
    asked: &str,
    said: &mut Reported,
) -> Result<(), Refusal> {
    said.clear();
    match stage.carry(alloc, asked, said) {
        Err(Refusal::NoMemory) if said.asks_again() => {
            said.met_refusal();
            said.clear();
            stage.carry(alloc, asked, said)
        }
        answer => answer,
    }
}

/// Carries out what a line asks, and tells the answer. Whether that is the one that the line wants.
pub(crate) fn is_answered(
    stage: &mut Stage,
    alloc: Global,
    line: &str,
    said: &mut Reported,
) -> bool {
    let (asked, wanted) = halves(line);
    let answer = carry(stage, alloc, asked, said);
    if let Err(refusal) = answer {
        said.clear();
        if said.refused(refusal).is_err() {
            return false;
        }
    }
    said.text() == wanted.as_bytes()
}
