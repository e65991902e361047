//! The whole text of a script.

ghost use Rattle.std.specs.Prelude.{IfOk};
ghost use Rattle.flashplan_keeping.specs.Verdicts.{IsFrontOf};

use slot_types::Refusal;
use std::alloc::Global;
use std::io::{ErrorKind, Read};

/// The most bytes of a script that are read: one more than a script may have.
const MAX_BYTES: u64 = 67_108_865;

/// Reads the text of a script: all of it, or the first 67,108,865 bytes, which the reader of scripts refuses. ReadFault
/// comes where the reader fails, and NoMemory where memory is refused.
pub fn script_text<R: Read + Drop>(alloc: Global, reader: R) -> Result<Vec<u8>, Refusal>
    ensures { IfOk result (λ text. IsFrontOf (R.remaining reader) text.items) }
{
    let mut text = Vec::new(alloc);
    let mut front = reader.take(MAX_BYTES);
    match front.read_to_end(&mut text) {
        Ok(_) => Ok(text),
        Err(error) if error.kind() == ErrorKind::OutOfMemory => Err(Refusal::NoMemory),
        Err(_) => Err(Refusal::ReadFault),
    }
}
