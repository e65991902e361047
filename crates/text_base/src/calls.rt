//! Calls of a reader, each made again where it is interrupted.

ghost use Rattle.std.specs.Prelude.{◌<◌, ◌≤◌, IfOk};
ghost use Rattle.std.specs.Io.{ReadsAtMost};
ghost use Rattle.std.specs.Io.KnownBytes.{ReadConsumes};

use std::io;
use std::io::{ErrorKind, Read};

/// Calls a reader while any of `calls` calls are left: once, and again where it was interrupted. An interrupted call is
/// a call, too. Where none is left the error is `Other`.
pub fn read_again<R: Read>(reader: &mut R, calls: &mut usize, buf: &mut [u8]) -> io::Result<usize>
    ensures bound { ReadsAtMost result buf.new }
    ensures bytes { ReadConsumes (R.remaining reader.old) (R.remaining reader.new) result buf.new }
    ensures calls { calls.new ≤ calls.old }
    ensures used { IfOk result (λ n. calls.new < calls.old) }
{
    while *calls > 0 {
        *calls -= 1;
        match reader.read(buf) {
            Err(error) if error.kind() == ErrorKind::Interrupted => {}
            done => return done,
        }
    }
    Err(io::Error::from(ErrorKind::Other))
}
