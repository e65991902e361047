//! Plays tables of command lines: carries each out on the files of the folder, as `flashrec` and `flashplan` do, and
//! compares what it prints, what it reports of a refusal, and its status, with what is wanted.
//!
//! `examples TABLE ..` prints each play that ended otherwise, and how many there were; it ends with 1 where one did.
//! README.md has what a table's lines are.
#![tactic(auto)]

mod changes;
mod folders;
mod plays;
mod programs;
mod shelves;
mod tables;

use std::alloc::Global;
use std::env::Env;
use std::io::Write;
use std::process::ExitCode;
use std::rt::Files;
use std::sync::Wait;
use std::thread::Threads;
use std::{env, fs, io};
use tables::{Tally, play_table};

/// Plays the tables of these names.
fn play_all<R: Files + Threads + Wait + Sync, W: Write>(
    rt: &R,
    alloc: Global,
    tables: &[String],
    out: &mut W,
) -> io::Result<Tally> {
    let mut tally = Tally::new();
    for table in tables {
        let text = fs::read_to_string(&(rt, alloc), table.as_str())?;
        play_table(rt, alloc, table.as_str(), text.as_str(), out, &mut tally)?;
    }
    Ok(tally)
}

/// The words after the program's name.
fn words_after<R: Env>(rt: &R, alloc: Global) -> io::Result<Vec<String>> {
    Ok(env::args(&(rt, alloc))?.skip(1).collect(alloc)?)
}

fn main(rt: HostRuntime) -> io::Result<ExitCode> {
    let tables = words_after(&rt, rt.alloc())?;
    let mut out = rt.stdout();
    let tally = play_all(&rt, rt.alloc(), tables.as_slice(), &mut out)?;
    tally.print(&mut out)?;
    Ok(ExitCode::from(u8::from(tally.has_wrong())))
}
