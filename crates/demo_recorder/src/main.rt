//! A recorder of its own: a device that counts and wears out, dies that keep their plan, and on each of two dies a timer
//! that waits for nobody, two tasks that ask when they may, and one that asks as fast as it can, all on threads of their
//! own; and what became of all that.
#![tactic(auto)]

mod answers;
mod babbler;
mod dies;
mod in_time;
mod nand;
mod pages;
mod plan;
mod ports;
mod report;
mod stops;
mod tasks;
mod timer;

use crate::dies::{Reported, run_die};
use crate::pages::read_pages;
use crate::plan::{Device, ENDURANCES, new_die};
use crate::report::{print_die, print_pages};
use crate::stops::Stop;
use slot_types::Refusal;
use std::alloc::Global;
use std::io::Write;
use std::process::ExitCode;
use std::sync::Wait;
use std::thread;
use std::thread::Threads;
use std::time::Clock;
use task_outcomes::OutcomeDie;

/// A die that was closed, with what its threads were answered.
type Closed = (Box<OutcomeDie<Device>>, Reported);

/// Runs both dies at once. Neither waits for the other.
fn run_dies<R: Clock + Threads + Wait + Sync>(
    rt: &R,
    alloc: Global,
) -> Result<(Closed, Closed), Stop> {
    let zero = new_die(alloc, ENDURANCES[0])?;
    let one = new_die(alloc, ENDURANCES[1])?;
    let (zero, one) = thread::join(rt, || run_die(rt, alloc, zero), || run_die(rt, alloc, one));
    Ok((zero?, one?))
}

/// Prints what the threads of a die were answered.
fn print_closed<W: Write>(out: &mut W, number: usize, closed: &Closed) -> Result<(), Refusal> {
    let tally = closed.0.die().die().core().device().tally();
    print_die(out, number, &closed.1, tally)
}

/// Runs the dies, and prints what became of them and what the pages of the second one hold.
fn record<R: Clock + Threads + Wait + Sync, W: Write>(
    rt: &R,
    alloc: Global,
    out: &mut W,
) -> Result<(), Stop> {
    let (zero, one) = run_dies(rt, alloc)?;
    print_closed(out, 0, &zero)?;
    print_closed(out, 1, &one)?;
    let pages = read_pages(rt, alloc, one.0)?;
    print_pages(out, &pages)?;
    Ok(())
}

fn main(rt: HostRuntime) -> ExitCode {
    match record(&rt, rt.alloc(), &mut rt.stdout()) {
        Ok(()) => ExitCode::SUCCESS,
        Err(stop) => {
            let _ = eprintln!(rt; "recorder: {stop}");
            ExitCode::FAILURE
        }
    }
}
