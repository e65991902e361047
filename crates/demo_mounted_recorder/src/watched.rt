//! A recorder that goes on until it is ended, and says what it finds, asks for and has done, for whoever watches it.

use crate::lives::opened;
use crate::power::Power;
use crate::recorder::{Recorder, look};
use crate::stops::Stop;
use crate::witness::Witness;
use flash_die::Nand;
use ongoing_die::OngoingDie;
use std::alloc::Global;
use std::cell::Cell;
use std::io;
use std::io::Write;
use std::rt::Files;

/// Prints what the pages have.
fn print_found<W: Write>(out: &mut W, witness: &Witness) -> io::Result<()> {
    for (page, known) in witness.pages.iter().enumerate() {
        writeln!(out, "page {page} has {}", known.done)?;
    }
    writeln!(out, "all pages were looked at")
}

/// Prints what was asked for and done since.
fn print_changes<W: Write>(out: &mut W, before: &Witness, after: &Witness) -> io::Result<()> {
    let pairs = before.pages.iter().zip(after.pages.iter());
    for (page, (before, after)) in pairs.enumerate() {
        if before.asked != after.asked {
            writeln!(out, "page {page} asks {}", after.asked)?;
        }
        if before.done != after.done {
            writeln!(out, "page {page} done {}", after.done)?;
        }
    }
    Ok(())
}

/// Carries out slots as long as the die does.
fn go_on<N: Nand, W: Write>(
    alloc: Global,
    die: &mut OngoingDie<N>,
    out: &mut W,
) -> Result<(), Stop> {
    let witness = Witness::of(&look(alloc, die)?);
    print_found(out, &witness)?;
    let mut recorder = Recorder::new(witness);
    for _ in 0..u64::MAX {
        let before = recorder.witness;
        recorder.ask(alloc, die)?;
        print_changes(out, &before, &recorder.witness)?;
        let before = recorder.witness;
        recorder.carry(alloc, die)?;
        print_changes(out, &before, &recorder.witness)?;
    }
    Ok(())
}

/// Goes on with the die in the file of this name, each write of which is on the disk when it ends.
pub(crate) fn run_watched<R: Files, W: Write>(
    rt: &R,
    alloc: Global,
    name: &str,
    out: &mut W,
) -> Result<(), Stop> {
    let power = Cell::new(Power::on());
    let mut die = opened(rt, alloc, name, true, &power)?;
    go_on(alloc, &mut die, out)
}
