//! Readers with an error flag, as the streams of C have one.

ghost use Rattle.std.specs.Prelude.{◌≡◌, IfErr, OnErr, OnOk, Some, false};
ghost use Rattle.std.specs.Io.{ReadsAtMost};
ghost use Rattle.std.specs.Io.KnownBytes.{ReadConsumes};
ghost use Rattle.text_base.specs.Flags.{KeepsFlag, SetsFlag};

use crate::calls::read_again;
use slot_types::Refusal;
use std::io;
use std::io::Read;

/// The most calls of a reader for its next bytes, if all but the last are interrupted.
const MAX_CALLS: usize = 1_048_576;

/// A reader of which contracts see whether a call of `take` has failed.
pub trait Input: Read {
    ghost use Rattle.std.specs.Prelude.{Bool, Option};

    // whether a call of `take` has failed, where that is known
    ghost has_failed: { Self → Option Bool };

    /// Puts the next bytes at the front of a buffer, and answers how many: none at the end, or where the buffer has no
    /// room. ReadFault where the reader fails; then it has given none.
    fn take(&mut self, buf: &mut [u8]) -> Result<usize, Refusal>
        ensures bound { ReadsAtMost result buf.new }
        ensures bytes { ReadConsumes (Self.remaining self.old) (Self.remaining self.new) result
            buf.new }
        ensures refused { IfErr result (λ refusal. refusal ≡ Refusal.ReadFault) }
        ensures works { OnOk result (KeepsFlag (has_failed self.old) (has_failed self.new)) }
        ensures failed { OnErr result (SetsFlag (has_failed self.old) (has_failed self.new)) };
}

/// A slice never fails.
impl Input for &[u8] {
    ghost has_failed = { λ text. Some false };

    fn take(&mut self, buf: &mut [u8]) -> Result<usize, Refusal> {
        match self.read(buf) {
            Ok(n) => Ok(n),
            Err(_) => unreachable!(),
        }
    }
}

/// Any reader, as a file or a stream of the system, with the flag. It fails where a call ends with an error. An
/// interrupted call is made again, 1,048,575 times at most for the same bytes: then it fails.
#[derive(Drop)]
pub struct FlaggedReader<R> {
    inner: R,
    failed: bool,
}

impl<R: Read> FlaggedReader<R> {
    /// No call has failed yet.
    pub fn new(inner: R) -> FlaggedReader<R>
        ensures fresh { ⟦<FlaggedReader<R> as Input>⟧.has_failed result ≡ Some false }
        ensures remaining { ⟦<FlaggedReader<R> as Read>⟧.remaining result ≡ R.remaining inner }
    {
        FlaggedReader {
            inner,
            failed: false,
        }
    }

    /// Whether a call of `take` has failed.
    pub fn has_failed(&self) -> bool
        ensures { ⟦<FlaggedReader<R> as Input>⟧.has_failed self.now ≡ Some result }
    {
        self.failed
    }
}

/// Its calls are those of the reader.
impl<R: Read> Read for FlaggedReader<R> {
    ghost remaining = { λ flagged. R.remaining flagged.inner };

    fn read(&mut self, buf: &mut [u8]) -> io::Result<usize>
        ensures bound { ReadsAtMost result buf.new }
        ensures bytes { ReadConsumes (R.remaining self.old.inner) (R.remaining self.new.inner)
            result buf.new }
    {
        self.inner.read(buf)
    }
}

impl<R: Read> Input for FlaggedReader<R> {
    ghost has_failed = { λ flagged. Some flagged.failed };

    fn take(&mut self, buf: &mut [u8]) -> Result<usize, Refusal> {
        let mut calls = MAX_CALLS;
        match read_again(&mut self.inner, &mut calls, buf) {
            Ok(n) => Ok(n),
            Err(_) => {
                self.failed = true;
                Err(Refusal::ReadFault)
            }
        }
    }
}
