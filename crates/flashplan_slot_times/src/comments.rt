//! How long a slot is, as the first line of a plan says it.

ghost use Rattle.std.specs.Prelude.{◌≡◌, ◌↔◌, ◌++◌, ◌<◌, ℕ, IfOk, IfSome, IsTrue, OnOk, Some, length, position};
ghost use Rattle.slot_types.specs.Refusal.{FailsForMemory};
ghost use Rattle.flashplan_slot_times.specs.Comments.{IsSlotOf, SaysSlot, is_space, slot_line};

use slot_types::Refusal;
use std::alloc::Global;
use std::io;
use std::io::Write;
use text_base::number;

/// How many bytes stand before the length.
const FRONT: usize = 12;

/// Adds how long a slot is.
pub fn put_slot(text: &mut Vec<u8>, slot_us: u32) -> io::Result<()>
    ensures { OnOk result (text.new.items ≡ text.old.items ++ slot_line slot_us) }
{
    write!(text, "# a slot is {slot_us} us; ")
}

/// The place of the first space.
fn space_in(text: &[u8]) -> Option<usize>
    ensures found { result ≡ position is_space text.now }
    ensures within { IfSome result (λ at. at < length text.now) }
{
    text.iter().position(|byte| *byte == b' ')
}

/// The number that stands where a text that begins so has the length.
fn number_in(text: &[u8]) -> Option<u32>
    ensures { (us : ℕ) → us < 4294967296 → SaysSlot text.now us → result ≡ Some us }
{
    if text.len() < FRONT {
        return None;
    }
    let rest = &text[FRONT..];
    let end = space_in(rest)?;
    number(&rest[..end])
}

/// What a text begins with that says how long a slot is. The only refusal is NoMemory.
fn line_of(alloc: Global, slot_us: u32) -> Result<Vec<u8>, Refusal>
    ensures line { IfOk result (λ line. line.items ≡ slot_line slot_us) }
    ensures refused { FailsForMemory result }
{
    let mut line = Vec::new(alloc);
    match put_slot(&mut line, slot_us) {
        Ok(()) => Ok(line),
        Err(_) => Err(Refusal::NoMemory),
    }
}

/// Whether a text begins so with this length. The only refusal is NoMemory.
fn says_slot(alloc: Global, text: &[u8], slot_us: u32) -> Result<bool, Refusal>
    ensures says { IfOk result (λ says. IsTrue says ↔ SaysSlot text.now slot_us) }
    ensures refused { FailsForMemory result }
{
    let line = line_of(alloc, slot_us)?;
    Ok(text.starts_with(&line))
}

/// The length of a slot in us, from 1 on, with which a text begins as [`put_slot`] writes it; none where it begins in any
/// other way. The only refusal is NoMemory.
pub fn slot_in(alloc: Global, text: &[u8]) -> Result<Option<u32>, Refusal>
    ensures slot { IfOk result (IsSlotOf text.now) }
    ensures refused { FailsForMemory result }
{
    let Some(slot_us) = number_in(text) else {
        return Ok(None);
    };
    if slot_us > 0 && says_slot(alloc, text, slot_us)? {
        Ok(Some(slot_us))
    } else {
        Ok(None)
    }
}
