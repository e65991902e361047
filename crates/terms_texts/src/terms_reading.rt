//! The plan with terms that a reader gives, read up to a bound.

ghost use Rattle.std.specs.Prelude.{◌≤◌, All, IfOk, IfErr, length};
ghost use Rattle.plan_texts.specs.PlanReading.{IsShort};
ghost use Rattle.terms_texts.specs.Stores.{IsUsable};
ghost use Rattle.terms_texts.specs.TermsReading.{FlagsReadFault, IsStoreOf, RefusesTextOf};

use crate::faults::TermsRefusal;
use crate::stores::{StoreTerms, read_terms};
use plan_texts::plan_text;
use std::alloc::Global;
use text_base::Input;

/// Reads the plan of a store with terms from a reader, as [`read_terms`] does from a text; one that goes on beyond
/// 1,048,576 bytes is reported as too long, and no more of it is read than one byte more. ReadFault comes exactly where
/// the reader fails, before anything is judged: its flag is set then, and stays with any other answer.
pub fn read_terms_from<R: Input>(alloc: Global, reader: &mut R) -> Result<StoreTerms, TermsRefusal>
    ensures store { IfOk result (IsStoreOf (R.remaining reader.old)) }
    ensures short { IfOk result (λ _. IsShort (R.remaining reader.old)) }
    ensures some { IfOk result (λ store. 1 ≤ length store) }
    ensures few { IfOk result (λ store. length store ≤ 8) }
    ensures usable { IfOk result (All IsUsable) }
    ensures flag { FlagsReadFault result (R.has_failed reader.old) (R.has_failed reader.new) }
    ensures refused { IfErr result (RefusesTextOf (R.remaining reader.old)) }
{
    let text = plan_text(alloc, reader)?;
    read_terms(alloc, &text)
}
