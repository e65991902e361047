//! A text that is written: whole, or it is said that it isn't.
//!
//! std's `write_all` says nothing of what was taken before an error, so the loop stands here.

ghost use Rattle.std.specs.Prelude.{◌≡◌, IfErr, OnErr, OnOk};
ghost use Rattle.std.specs.Io.KnownBytes.{Appends};
ghost use Rattle.text_base.specs.Flags.{KeepsFlag, SetsFlag};
ghost use Rattle.text_base.specs.Writing.{AppendsPart};

use crate::outputs::Output;
use slot_types::Refusal;

/// Writes a text by as many calls of its writer as it takes. Each goes on where the one before it stopped.
///
/// WriteFault comes exactly where a call fails, and the writer's flag is set then, where it is known; else it stays. A
/// front of the text was then written that isn't the whole. The writer isn't flushed.
pub fn write_whole<W: Output>(writer: &mut W, text: &[u8]) -> Result<(), Refusal>
    ensures whole { OnOk result (Appends (W.contents writer.old) (W.contents writer.new) text.now) }
    ensures works { OnOk result
        (KeepsFlag (W.has_failed writer.old) (W.has_failed writer.new)) }
    ensures part { OnErr result
        (AppendsPart (W.contents writer.old) (W.contents writer.new) text.now) }
    ensures failed { OnErr result
        (SetsFlag (W.has_failed writer.old) (W.has_failed writer.new)) }
    ensures refused { IfErr result (λ refusal. refusal ≡ Refusal.WriteFault) }
{
    let mut left = text;
    while !left.is_empty() {
        let n = writer.put(left)?;
        left = &left[n..];
    }
    Ok(())
}
