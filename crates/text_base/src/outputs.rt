//! Writers with an error flag, as the streams of C have one.

ghost use Rattle.std.specs.Prelude.{◌≡◌, ◌<◌, ◌≤◌, IfErr, IfOk, None, OnErr, OnOk, Some, false, length, take};
ghost use Rattle.std.specs.Io.KnownBytes.{Appends, Keeps};
ghost use Rattle.text_base.specs.Flags.{KeepsFlag, SetsFlag};

use slot_types::Refusal;
use std::alloc::Global;
use std::io;
use std::io::{ErrorKind, Write};

/// The most calls of a writer for bytes of a text, if all but the last are interrupted.
const MAX_CALLS: usize = 1_048_576;

/// A writer of which contracts see whether a call of it has failed.
pub trait Output: Write {
    ghost use Rattle.std.specs.Prelude.{Bool, Option};

    // whether a call has failed, where that is known
    ghost has_failed: { Self → Option Bool };

    /// Takes a front of a text that has bytes, and answers how many: at least one. WriteFault where the writer fails;
    /// then it has taken none.
    fn put(&mut self, text: &[u8]) -> Result<usize, Refusal>
        requires some { 0 < length text.now }
        ensures some { IfOk result (λ n. 0 < n) }
        ensures most { IfOk result (λ n. n ≤ length text.now) }
        ensures taken { IfOk result (λ n.
            Appends (Self.contents self.old) (Self.contents self.new) (take n text.now)) }
        ensures none { OnErr result (Keeps (Self.contents self.old) (Self.contents self.new)) }
        ensures refused { IfErr result (λ refusal. refusal ≡ Refusal.WriteFault) }
        ensures works { OnOk result (KeepsFlag (has_failed self.old) (has_failed self.new)) }
        ensures failed { OnErr result (SetsFlag (has_failed self.old) (has_failed self.new)) };
}

/// A vector fails where memory is refused, and doesn't say so later.
impl Output for Vec<u8> {
    ghost has_failed = { λ text. None };

    fn put(&mut self, text: &[u8]) -> Result<usize, Refusal> {
        match self.extend_from_slice(text) {
            Ok(()) => Ok(text.len()),
            Err(_) => Err(Refusal::WriteFault),
        }
    }
}

/// Any writer, as a file or a stream of the system, with the flag. It fails where a call ends with an error, or takes
/// nothing. An interrupted call is made again, 1,048,575 times at most for the same bytes: then it fails.
#[derive(Drop)]
pub struct Flagged<W> {
    inner: W,
    failed: bool,
}

impl<W: Write> Flagged<W> {
    /// No call has failed yet.
    pub fn new(inner: W) -> Flagged<W>
        ensures fresh { ⟦<Flagged<W> as Output>⟧.has_failed result ≡ Some false }
        ensures contents { ⟦<Flagged<W> as Write>⟧.contents result ≡ W.contents inner }
    {
        Flagged {
            inner,
            failed: false,
        }
    }

    /// Whether a call of `put` has failed.
    pub fn has_failed(&self) -> bool
        ensures { ⟦<Flagged<W> as Output>⟧.has_failed self.now ≡ Some result }
    {
        self.failed
    }

    /// The writer itself, lent.
    pub fn get_ref(&self) -> &W
        ensures contents { W.contents result.now ≡ ⟦<Flagged<W> as Write>⟧.contents self.now }
    {
        &self.inner
    }

    /// The writer itself.
    pub fn into_inner(self) -> W
        ensures contents { W.contents result ≡ ⟦<Flagged<W> as Write>⟧.contents self }
    {
        self.inner
    }
}

/// Its calls are those of the writer, and leave the flag.
impl<W: Write> Write for Flagged<W> {
    ghost contents = { λ flagged. W.contents flagged.inner };

    fn write(&mut self, buf: &[u8]) -> io::Result<usize> {
        self.inner.write(buf)
    }

    fn flush(&mut self) -> io::Result<()> {
        self.inner.flush()
    }
}

impl<W: Write> Output for Flagged<W> {
    ghost has_failed = { λ flagged. Some flagged.failed };

    fn put(&mut self, text: &[u8]) -> Result<usize, Refusal> {
        for _call in 0..MAX_CALLS {
            match self.inner.write(text) {
                Ok(0) => break,
                Ok(n) => return Ok(n),
                Err(error) if error.kind() == ErrorKind::Interrupted => {}
                Err(_) => break,
            }
        }
        self.failed = true;
        Err(Refusal::WriteFault)
    }
}
