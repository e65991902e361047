//! Command lines of any bytes, and output that is closed.

use flash_commands::{end, read_words, show, words_of};
use std::alloc::Global;
use std::env::{Env, FillError};
use std::fmt::Display;
use std::io;
use std::test::Fail;

/// A command line whose words are of any bytes.
#[derive(Drop)]
struct CommandLine<'a> {
    words: &'a [&'a [u8]],
}

impl Env for CommandLine<'_> {
    fn arg(&self, i: usize, buf: &mut [u8]) -> Result<usize, FillError> {
        let Some(word) = self.words.get(i) else {
            return Err(FillError::NotPresent);
        };
        if buf.len() < word.len() {
            return Err(FillError::TooLong);
        }
        buf[..word.len()].copy_from_slice(word);
        Ok(word.len())
    }

    fn var(&self, _name: &str, _buf: &mut [u8]) -> Result<usize, FillError> {
        Err(FillError::NotPresent)
    }

    fn var_at(&self, _i: usize, _buf: &mut [u8]) -> Result<usize, FillError> {
        Err(FillError::NotPresent)
    }
}

/// Standard output that takes nothing once it is closed, and standard error that takes all.
#[derive(Drop)]
struct Output {
    is_closed: bool,
}

impl Output {
    fn take(&self) -> io::Result<()> {
        if self.is_closed {
            return Err(io::Error::from(io::ErrorKind::BrokenPipe));
        }
        Ok(())
    }
}

impl Print for Output {
    fn print<D: Display + Drop>(&self, _value: D) -> io::Result<()> {
        self.take()
    }

    fn println<D: Display + Drop>(&self, _value: D) -> io::Result<()> {
        self.take()
    }

    fn write_all(&self, _bytes: &[u8]) -> io::Result<()> {
        self.take()
    }
}

impl Eprint for Output {
    fn eprint<D: Display + Drop>(&self, _value: D) -> io::Result<()> {
        Ok(())
    }

    fn eprintln<D: Display + Drop>(&self, _value: D) -> io::Result<()> {
        Ok(())
    }
}

/// What the program writes to standard error and its status where these words are read, if they are no text.
fn refused_words(alloc: Global, words: &[&[u8]]) -> Option<(Vec<u8>, u8)> {
    let Err(fault) = words_of(&CommandLine { words }, alloc) else {
        return None;
    };
    let mut err = Vec::new(alloc);
    let status = end(&mut err, Err(fault));
    Some((err, status))
}

#[test]
fn words_are_read_as_they_stand(rt: HostRuntime) -> Result<(), Fail> {
    let long = [b'a'; 1000];
    let line: [&[u8]; 4] = [b"flashrec", b"", "größe".as_bytes(), &long];
    let words = words_of(&CommandLine { words: &line }, rt.alloc());
    let Ok(words) = words else {
        panic!(rt; "the words are refused")
    };
    assert_eq!(rt; words.len(), 4);
    for (word, wanted) in words.iter().zip(line) {
        assert!(rt; word.as_bytes() == wanted);
    }
    Ok(())
}

#[test]
fn a_word_that_is_no_text_ends_with_two(rt: HostRuntime) {
    for word in [b"\xff".as_slice(), b"run\xc3", b"\xed\xa0\x80"] {
        let said = refused_words(rt.alloc(), &[b"flashrec", word]);
        let Some((err, status)) = said else {
            panic!(rt; "the words are accepted")
        };
        assert_eq!(rt; status, 2);
        assert!(rt;
            err.as_slice() == b"error: a word of the command line isn't UTF-8\n".as_slice()
        );
    }
}

/// The status and what the program writes to standard error itself, where these words are no command and that is shown.
fn shown(alloc: Global, line: &[&[u8]], is_closed: bool) -> Option<(Vec<u8>, u8)> {
    let Ok(words) = words_of(&CommandLine { words: line }, alloc) else {
        return None;
    };
    match read_words(alloc, words.as_slice()) {
        Ok(_) => None,
        Err(error) => {
            let mut err = Vec::new(alloc);
            let status = show(&Output { is_closed }, &mut err, error);
            Some((err, status))
        }
    }
}

/// Whether these words are no command, and end with this status and this line.
fn ends_with(alloc: Global, line: &[&[u8]], is_closed: bool, status: u8, said: &str) -> bool {
    match shown(alloc, line, is_closed) {
        Some((err, ended)) => ended == status && err.as_slice() == said.as_bytes(),
        None => false,
    }
}

#[test]
fn help_and_the_version_end_with_zero_where_they_can_be_written(rt: HostRuntime) {
    for word in [b"--help".as_slice(), b"-h", b"help", b"--version", b"-V"] {
        let line = [b"flashrec".as_slice(), word];
        assert!(rt; ends_with(rt.alloc(), &line, false, 0, ""));
        assert!(rt; ends_with(rt.alloc(), &line, true, 1, "error 22 WriteFault\n"));
    }
}

#[test]
fn wrong_words_end_with_two_on_any_output(rt: HostRuntime) {
    let line = [b"flashrec".as_slice(), b"walk"];
    for is_closed in [false, true] {
        assert!(rt; ends_with(rt.alloc(), &line, is_closed, 2, ""));
    }
}
