//! Plays histories of one die: texts of calls, each with what has to be answered.
//!
//! `test_die_plays FILE ..`: it prints each line that is answered otherwise, and by file how many calls were played; it
//! ends with 1 where a call was answered otherwise. README.md has the words of a text.
#![tactic(auto)]

mod answers;
mod calls;
mod checkpoints;
mod dies;
mod events;
mod fields;
mod lines;
mod next_slots;
mod plays;
mod said;
mod stage;

use plays::{Tally, play};
use said::Reported;
use std::alloc::Global;
use std::env::Env;
use std::io::Write;
use std::process::ExitCode;
use std::rt::Files;
use std::{env, fs, io};
use test_memory::Memory;

/// Plays the histories of a file. Answers how many calls were answered otherwise.
fn play_file<R: Files, W: Write>(
    rt: &R,
    alloc: Global,
    file: &str,
    said: &mut Reported,
    out: &mut W,
) -> io::Result<u64> {
    let text = fs::read_to_string(&(rt, alloc), file)?;
    let Tally { calls, wrong } = play(alloc, file, text.as_str(), said, out)?;
    writeln!(out, "{file}: {calls} calls, {wrong} answered otherwise")?;
    Ok(wrong)
}

/// Plays the histories of the files that the words after the first one name.
fn play_all<R: Files + Env, W: Write>(
    rt: &R,
    alloc: Global,
    words: &[String],
    out: &mut W,
) -> io::Result<u64> {
    let mut said = Reported::new(alloc, Memory::of(rt))?;
    let mut wrong: u64 = 0;
    for file in words.iter().skip(1) {
        let otherwise = play_file(rt, alloc, file.as_str(), &mut said, out)?;
        wrong = wrong.saturating_add(otherwise);
    }
    Ok(wrong)
}

fn main(rt: HostRuntime) -> io::Result<ExitCode> {
    let words: Vec<String> = env::args(&rt)?.collect(rt.alloc())?;
    let wrong = play_all(&rt, rt.alloc(), words.as_slice(), &mut rt.stdout())?;
    Ok(ExitCode::from(u8::from(wrong > 0)))
}
