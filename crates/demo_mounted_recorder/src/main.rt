//! A recorder whose die lies in a file and is mounted from that: it survives each loss of power. After a clean shutdown it
//! goes on from what was saved, without a mount.
//!
//! `demo_mounted_recorder FILE` records until it is ended. `demo_mounted_recorder FILE LIVES SEED` has `LIVES` lives,
//! each of which ends by chance, with a loss of power or a clean shutdown.
#![tactic(auto)]

mod dice;
mod lives;
mod plan;
mod power;
mod recorder;
mod report;
mod samples;
mod shutdowns;
mod started;
mod stops;
mod watched;
mod witness;

use crate::lives::run_lives;
use crate::stops::Stop;
use crate::watched::run_watched;
use std::alloc::Global;
use std::env::Env;
use std::io::Write;
use std::process::ExitCode;
use std::rt::Files;
use std::{env, io};

/// The words after the program's name.
fn words_after<R: Env>(rt: &R, alloc: Global) -> io::Result<Vec<String>> {
    Ok(env::args(&(rt, alloc))?.skip(1).collect(alloc)?)
}

/// A number of the words.
fn number(word: &str) -> Result<u64, Stop> {
    word.parse().map_err(|_| Stop::Words)
}

fn run<R: Files, W: Write>(
    rt: &R,
    alloc: Global,
    words: &[String],
    out: &mut W,
) -> Result<(), Stop> {
    match words {
        [file] => run_watched(rt, alloc, file.as_str(), out),
        [file, lives, seed] => {
            let (lives, seed) = (number(lives.as_str())?, number(seed.as_str())?);
            run_lives(rt, alloc, file.as_str(), lives, seed, out)
        }
        _ => Err(Stop::Words),
    }
}

/// Records as the words say.
fn record<R: Env + Files, W: Write>(rt: &R, alloc: Global, out: &mut W) -> Result<(), Stop> {
    let words = words_after(rt, alloc)?;
    run(rt, alloc, words.as_slice(), out)
}

fn main(rt: HostRuntime) -> ExitCode {
    match record(&rt, rt.alloc(), &mut rt.stdout()) {
        Ok(()) => ExitCode::SUCCESS,
        Err(stop) => {
            let _ = eprintln!(rt; "recorder: {stop}");
            ExitCode::FAILURE
        }
    }
}
