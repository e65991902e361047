//! What is wanted of a command line.

use crate::changes::meant;
use crate::programs::Ended;
use std::alloc::Global;
use std::io::Write;
use std::rt::Files;
use std::{fs, io};

/// What is wanted of a play: a status, a text on standard output and one on standard error.
#[derive(Clone, Copy, Drop)]
pub(crate) struct Wanted<'a> {
    status: u8,
    out: &'a str,
    err: &'a str,
}

/// A line `STATUS|OUT|ERR|CHANGES`, whose changes may be left out.
pub(crate) fn wanted_in(line: &str) -> Option<(Wanted<'_>, &str)> {
    let (status, rest) = line.split_once('|')?;
    let (out, rest) = rest.split_once('|')?;
    let (err, changes) = rest.split_once('|').unwrap_or((rest, ""));
    let status = status.parse().ok()?;
    Some((Wanted { status, out, err }, changes))
}

/// Whether a text is what is wanted: one that ends with `*` is only its front, and `@FILE` is the text of a file.
fn is_text<R: Files>(rt: &R, alloc: Global, wanted: &str, text: &[u8]) -> io::Result<bool> {
    if let Some(name) = wanted.strip_prefix('@') {
        let wanted = fs::read_to_string(&(rt, alloc), name)?;
        return Ok(text == wanted.as_bytes());
    }
    if let Some(front) = wanted.strip_suffix('*') {
        let front = meant(alloc, front)?;
        return Ok(text.starts_with(front.as_bytes()));
    }
    let wanted = meant(alloc, wanted)?;
    Ok(text == wanted.as_bytes())
}

impl Ended {
    /// Whether it ended as is wanted.
    pub(crate) fn is<R: Files>(
        &self,
        rt: &R,
        alloc: Global,
        wanted: Wanted<'_>,
    ) -> io::Result<bool> {
        Ok(
            self.status == wanted.status
                && is_text(rt, alloc, wanted.out, &self.out)?
                && is_text(rt, alloc, wanted.err, &self.err)?,
        )
    }

    /// Prints how it ended.
    pub(crate) fn print<W: Write>(&self, out: &mut W) -> io::Result<()> {
        out.write_all(&self.out)?;
        out.write_all(&self.err)?;
        writeln!(out, "status {}", self.status)
    }
}
