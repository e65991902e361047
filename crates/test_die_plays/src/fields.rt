//! The fields of a line.

use slot_types::{Cause, JobNo, Op, OpList, Refusal};
use std::alloc::Global;
use text_base::{list, number};

/// The fields of a call: its name, and what it is asked with.
#[derive(Drop)]
pub(crate) struct Fields<'a> {
    pub(crate) name: &'a str,
    rest: Vec<&'a str>,
}

/// A line that can't be read, or a call that there isn't.
pub(crate) const UNREAD: Refusal = Refusal::ScriptRow {
    line: 0,
    cause: Cause::Fields,
};

/// Adds a word of operations. `W3=11` writes sixteen bytes 11.
fn put_word(text: &mut Vec<u8>, word: &str) -> Result<(), Refusal> {
    if !text.is_empty() {
        text.extend_from_slice(b" ")?;
    }
    match word.split_once('=') {
        Some((page, byte)) if byte.len() == 2 => {
            text.extend_from_slice(page.as_bytes())?;
            text.extend_from_slice(b"=")?;
            for _ in 0..16u32 {
                text.extend_from_slice(byte.as_bytes())?;
            }
        }
        _ => text.extend_from_slice(word.as_bytes())?,
    }
    Ok(())
}

/// Operations as scripts write them. `R0*3` is three times `R0`.
fn spelled_out(alloc: Global, field: &str) -> Result<Vec<u8>, Refusal> {
    let mut text = Vec::new(alloc);
    for words in field.split(' ') {
        let (word, times) = words.split_once('*').unwrap_or((words, "1"));
        for _ in 0..number(times.as_bytes()).unwrap_or(0) {
            put_word(&mut text, word)?;
        }
    }
    Ok(text)
}

impl<'a> Fields<'a> {
    pub(crate) fn new(alloc: Global, call: &'a str) -> Result<Fields<'a>, Refusal> {
        let rest: Vec<&'a str> = call.split(',').skip(1).collect(alloc)?;
        let name = call.split(',').next().unwrap_or("");
        Ok(Fields { name, rest })
    }

    /// The field in this place after the name. Nothing, where there is none.
    pub(crate) fn at(&self, place: usize) -> &str {
        match self.rest.get(place) {
            Some(field) => *field,
            None => "",
        }
    }

    pub(crate) fn number(&self, place: usize) -> Result<u32, Refusal> {
        number(self.at(place).as_bytes()).ok_or(UNREAD)
    }

    pub(crate) fn numbers(&self, alloc: Global, place: usize) -> Result<Vec<JobNo>, Refusal> {
        match list::<JobNo>(alloc, self.at(place).as_bytes())? {
            Some(numbers) => Ok(numbers.into_vec()),
            None => Err(UNREAD),
        }
    }

    pub(crate) fn ops(&self, alloc: Global, place: usize) -> Result<OpList, Refusal> {
        let text = spelled_out(alloc, self.at(place))?;
        match list::<Op>(alloc, text.as_slice())? {
            Some(ops) => Ok(ops),
            None => Err(UNREAD),
        }
    }
}
