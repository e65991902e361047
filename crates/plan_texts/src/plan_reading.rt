//! The plan that a reader gives, read up to a bound.

ghost use Rattle.std.specs.Prelude.{◌≡◌, ◌<◌, ◌≤◌, All, IfOk, IfErr, IfSome, length, take};
ghost use Rattle.plan_rules.specs.Bound.{MeetsBound};
ghost use Rattle.plan_rules.specs.Times.{PassesItsTimes};
ghost use Rattle.plan_texts.specs.PlanReading.{IsShort, IsStoreOf, RefusesPlanOf, TakesMore, FlagsReadFault};
ghost use Rattle.text_base.specs.Readings.{IsOutside};

use crate::stores::read_plan;
use slot_types::{Refusal, StorePlan};
use std::alloc::Global;
use text_base::Input;

/// The most bytes of a plan that are read: one more than a plan may have.
const MAX_BYTES: usize = 1_048_577;

/// Puts what the reader gives next after a text, and answers how many bytes these are: none at the end.
fn read_more<R: Input>(reader: &mut R, text: &mut Vec<u8>) -> Result<usize, Refusal>
    requires { length text.old.items < 1048577 }
    ensures more { IfOk result
        (TakesMore (R.remaining reader.old) (R.remaining reader.new) text.old.items
        text.new.items) }
    ensures room { IfOk result (λ _. length text.new.items ≤ 1048577) }
    ensures flag { FlagsReadFault result (R.has_failed reader.old) (R.has_failed reader.new) }
    ensures refused { IfErr result IsOutside }
{
    let mut chunk = [0u8; 4096];
    let most = chunk.len().min(MAX_BYTES - text.len());
    let n = Input::take(reader, &mut chunk[..most])?;
    text.extend_from_slice(&chunk[..n])?;
    Ok(n)
}

/// Reads the text of a plan: all of it, or the first 1,048,577 bytes, of which [`plan_numbers`](crate::plan_numbers)
/// tells that they are too many. The reader is asked for bytes 1,048,577 times at most, since it gives some each time
/// but at the end. ReadFault comes exactly where the reader fails: its flag is set then, and stays with any other
/// answer. NoMemory comes where memory is refused.
pub fn plan_text<R: Input>(alloc: Global, reader: &mut R) -> Result<Vec<u8>, Refusal>
    ensures text { IfOk result (λ text.
        IfSome (R.remaining reader.old) (λ bytes. text.items ≡ take 1048577 bytes)) }
    ensures flag { FlagsReadFault result (R.has_failed reader.old) (R.has_failed reader.new) }
    ensures refused { IfErr result IsOutside }
{
    let mut text = Vec::new(alloc);
    while text.len() < MAX_BYTES {
        let more = read_more(reader, &mut text)?;
        if more == 0 {
            return Ok(text);
        }
    }
    Ok(text)
}

/// Reads the plan of a store from a reader, as [`read_plan`] does from a text; one that goes on beyond 1,048,576 bytes
/// is reported as too long, and no more of it is read than one byte more. ReadFault comes exactly where the reader
/// fails, before anything is judged: its flag is set then, and stays with any other answer.
pub fn read_plan_from<R: Input>(alloc: Global, reader: &mut R) -> Result<StorePlan, Refusal>
    ensures store { IfOk result (IsStoreOf (R.remaining reader.old)) }
    ensures short { IfOk result (λ _. IsShort (R.remaining reader.old)) }
    ensures some { IfOk result (λ store. 1 ≤ length store) }
    ensures few { IfOk result (λ store. length store ≤ 8) }
    ensures bound { IfOk result (All MeetsBound) }
    ensures passes { IfOk result (All PassesItsTimes) }
    ensures flag { FlagsReadFault result (R.has_failed reader.old) (R.has_failed reader.new) }
    ensures refused { IfErr result (RefusesPlanOf (R.remaining reader.old)) }
{
    let text = plan_text(alloc, reader)?;
    read_plan(alloc, &text)
}
