//! A command line of either program that is carried out.

use crate::shelves::Shelved;
use flash_commands::{Fault, Folder, Output, act, end, open};
use flashplan_commands::act_asked;
use std::alloc::{AllocError, Global};
use std::io;
use std::io::Write;
use std::sync::Wait;
use std::thread::Threads;

/// What a command line printed, what it reported, and its status. The files that it wrote are in what it printed, each
/// after a line with its name.
#[derive(Drop)]
pub(crate) struct Ended {
    pub(crate) out: Vec<u8>,
    pub(crate) err: Vec<u8>,
    pub(crate) status: u8,
}

/// The words of a line.
fn words_in(alloc: Global, line: &str) -> Result<Vec<String>, AllocError> {
    let mut words = Vec::new(alloc);
    for word in line.split(' ') {
        words.push(String::from_str(alloc, word)?)?;
    }
    Ok(words)
}

/// Shows what clap answers in place of a command, on the stream that it is for, and answers the status.
fn show<W: Write, E: Write>(out: &mut W, err: &mut E, error: clap::Error) -> io::Result<u8> {
    if error.use_stderr() {
        write!(err, "{error}")?;
        return Ok(Fault::Words(error).status());
    }
    write!(out, "{error}")?;
    Ok(0)
}

/// Carries out the words of `flashrec`.
fn record<R: Threads + Wait + Sync, D: Folder, W: Output, E: Write>(
    rt: &R,
    alloc: Global,
    folder: &D,
    words: &[String],
    out: &mut W,
    err: &mut E,
) -> io::Result<u8> {
    match flash_commands::read_words(alloc, words) {
        Ok(command) => match open(folder, command) {
            Ok((first, second)) => Ok(act(rt, alloc, command, first, second, out, err)),
            Err(refusal) => Ok(end(err, Err(Fault::Refused(refusal)))),
        },
        Err(error) => show(out, err, error),
    }
}

/// Carries out the words of `flashplan`.
fn design<D: Folder, W: Output, E: Write>(
    alloc: Global,
    folder: &D,
    words: &[String],
    out: &mut W,
    err: &mut E,
) -> io::Result<u8> {
    match flashplan_words::read_words(alloc, words) {
        Ok(asked) => {
            let shelf = Shelved::new(alloc);
            let status = act_asked(alloc, folder, &shelf, &asked, out, err);
            shelf.print(out)?;
            Ok(status)
        }
        Err(error) => show(out, err, error),
    }
}

/// Carries out a command line on the files of a folder.
pub(crate) fn carry_out<R: Threads + Wait + Sync, D: Folder>(
    rt: &R,
    alloc: Global,
    folder: &D,
    line: &str,
) -> io::Result<Ended> {
    let words = words_in(alloc, line)?;
    let (mut out, mut err) = (Vec::new(alloc), Vec::new(alloc));
    let status = if line.starts_with("flashplan") {
        design(alloc, folder, words.as_slice(), &mut out, &mut err)?
    } else {
        record(rt, alloc, folder, words.as_slice(), &mut out, &mut err)?
    };
    Ok(Ended { out, err, status })
}
