//! What a die answers, in words.

use slot_types::{PageData, Refusal};
use std::alloc::{AllocError, Global};
use std::io::Write;
use test_memory::Memory;
use text_base::put_page;

/// Words with one space between two.
#[derive(Drop)]
pub(crate) struct Reported {
    text: Vec<u8>,
    memory: Memory,
}

/// More bytes than the longest answer of the histories has, so that telling one takes no memory.
const ROOM: usize = 65_536;

impl Reported {
    pub(crate) fn new(alloc: Global, memory: Memory) -> Result<Reported, AllocError> {
        Ok(Reported {
            text: Vec::with_capacity(alloc, ROOM)?,
            memory,
        })
    }

    pub(crate) fn text(&self) -> &[u8] {
        self.text.as_slice()
    }

    pub(crate) fn clear(&mut self) {
        self.text.clear();
    }

    /// Whether a call that finds no memory is to be made again.
    pub(crate) fn asks_again(&self) -> bool {
        self.memory == Memory::Scarce
    }

    /// A call has met the refused allocation: no other one does.
    pub(crate) fn met_refusal(&mut self) {
        self.memory = Memory::Ample;
    }

    fn space(&mut self) -> Result<(), Refusal> {
        if !self.text.is_empty() {
            self.text.extend_from_slice(b" ")?;
        }
        Ok(())
    }

    /// Adds words.
    pub(crate) fn words(&mut self, words: &str) -> Result<(), Refusal> {
        self.space()?;
        self.text.extend_from_slice(words.as_bytes())?;
        Ok(())
    }

    /// Adds a number.
    pub(crate) fn number(&mut self, number: i64) -> Result<(), Refusal> {
        self.space()?;
        match write!(self.text, "{number}") {
            Ok(()) => Ok(()),
            Err(_) => Err(Refusal::NoMemory),
        }
    }

    /// Adds a count.
    pub(crate) fn count(&mut self, count: u64) -> Result<(), Refusal> {
        self.space()?;
        match write!(self.text, "{count}") {
            Ok(()) => Ok(()),
            Err(_) => Err(Refusal::NoMemory),
        }
    }

    /// Adds a word and a number after it.
    pub(crate) fn counted(&mut self, word: &str, number: i64) -> Result<(), Refusal> {
        self.words(word)?;
        self.number(number)
    }

    /// Adds a word with a number right after it.
    pub(crate) fn numbered(&mut self, word: &str, number: u32) -> Result<(), Refusal> {
        self.space()?;
        match write!(self.text, "{word}{number}") {
            Ok(()) => Ok(()),
            Err(_) => Err(Refusal::NoMemory),
        }
    }

    /// Adds two numbers with a slash between them.
    pub(crate) fn pair(&mut self, first: u32, second: u32) -> Result<(), Refusal> {
        self.space()?;
        match write!(self.text, "{first}/{second}") {
            Ok(()) => Ok(()),
            Err(_) => Err(Refusal::NoMemory),
        }
    }

    /// Adds right after the last word what ends it.
    pub(crate) fn end(&mut self, mark: &str) -> Result<(), Refusal> {
        self.text.extend_from_slice(mark.as_bytes())?;
        Ok(())
    }

    /// Adds a page that stands by itself.
    pub(crate) fn page(&mut self, page: &PageData) -> Result<(), Refusal> {
        self.space()?;
        self.digits(page)
    }

    /// Adds what a page holds, right after its number.
    pub(crate) fn holds(&mut self, page: &PageData) -> Result<(), Refusal> {
        self.text.extend_from_slice(b"=")?;
        self.digits(page)
    }

    /// The digits of a page's bytes; of sixteen equal ones the digits of one.
    fn digits(&mut self, page: &PageData) -> Result<(), Refusal> {
        let first = self.text.len();
        if put_page(&mut self.text, page).is_err() {
            return Err(Refusal::NoMemory);
        }
        if is_even(page) {
            self.text.truncate(first.saturating_add(2));
        }
        Ok(())
    }

    /// Adds a refusal, as it prints itself.
    pub(crate) fn refused(&mut self, refusal: Refusal) -> Result<(), Refusal> {
        self.space()?;
        match write!(self.text, "{refusal}") {
            Ok(()) => Ok(()),
            Err(_) => Err(Refusal::NoMemory),
        }
    }
}

/// Whether all bytes of a page are equal.
fn is_even(page: &PageData) -> bool {
    let first = page.0[0];
    for byte in page.0 {
        if byte != first {
            return false;
        }
    }
    true
}
