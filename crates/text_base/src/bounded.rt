//! A reader that is given up at a bound.

ghost use Rattle.std.specs.Prelude.{◌≡◌, ◌<◌, ◌^◌, option_map};
ghost use Rattle.std.specs.Io.{ReadsAtMost};
ghost use Rattle.std.specs.Io.KnownBytes.{ReadConsumes};
ghost use Rattle.text_base.specs.BoundedReaders.{bounded_remaining};
ghost use Rattle.text_base.specs.Marks.{with_mark};

use crate::calls::read_again;
use std::io;
use std::io::{ErrorKind, Read};

/// The most bytes that a text may have.
pub const MAX_BYTES: usize = 67_108_864;

/// The most calls that a text is read with, those among them that are interrupted.
pub const MAX_CALLS: usize = 67_108_865;

/// A reader that fails where a text goes on past `MAX_BYTES`, or at a call past `MAX_CALLS`. A call that is interrupted
/// is made again.
#[derive(Drop)]
pub struct Bounded<R> {
    inner: R,
    room: usize,
    calls: usize,
    past: Option<u8>,
    ended: bool,
}

impl<R: Read> Bounded<R> {
    pub fn new(inner: R) -> Bounded<R>
        ensures { bounded_remaining R.remaining result
            ≡ option_map (with_mark 67108864) (R.remaining inner) }
    {
        Bounded {
            inner,
            room: MAX_BYTES,
            calls: MAX_CALLS,
            past: None,
            ended: false,
        }
    }

    /// A reader that fails where a text goes on past `most` bytes, or at a call past `most + 1` calls.
    pub fn up_to(inner: R, most: usize) -> Bounded<R>
        requires { most < 2 ^ 32 }
        ensures { bounded_remaining R.remaining result
            ≡ option_map (with_mark most) (R.remaining inner) }
    {
        Bounded {
            inner,
            room: most,
            calls: most + 1,
            past: None,
            ended: false,
        }
    }
}

impl<R: Read> Read for Bounded<R> {
    ghost remaining = { bounded_remaining R.remaining };

    fn read(&mut self, buf: &mut [u8]) -> io::Result<usize>
        ensures bound { ReadsAtMost result buf.new }
        ensures bytes { ReadConsumes (bounded_remaining R.remaining self.old)
            (bounded_remaining R.remaining self.new) result buf.new }
    {
        if self.ended || buf.is_empty() {
            return Ok(0);
        }
        if self.past.is_some() {
            return Err(io::Error::from(ErrorKind::Other));
        }
        if self.room == 0 {
            let mut one = [0u8];
            if read_again(&mut self.inner, &mut self.calls, &mut one)? == 0 {
                self.ended = true;
                return Ok(0);
            }
            self.past = Some(one[0]);
            return Err(io::Error::from(ErrorKind::Other));
        }
        let most = buf.len().min(self.room);
        let n = read_again(&mut self.inner, &mut self.calls, &mut buf[..most])?;
        self.room -= n;
        self.ended = n == 0;
        Ok(n)
    }
}
