//! The nearest alpha with which a plan would do, with the caps, collect periods and collect deadlines that go with it.

ghost use Rattle.std.specs.Prelude.{◌≡◌, ◌↔◌, ◌+◌, ◌<◌, IfOk, IfSome, IsTrue, None};
ghost use Rattle.slot_types.specs.Refusal.{FailsForMemory};
ghost use Rattle.flashplan_design.specs.Changes.{distance};
ghost use Rattle.flashplan_terms_changes.specs.Changes.{Does, FindsAlpha};

use crate::nearest::all_do;
use crate::plan_numbers::PlanNumber;
use slot_types::Refusal;
use std::alloc::Global;
use terms_texts::TermsNumbers;

/// How far two numbers are apart.
pub fn distance(a: u32, b: u32) -> u32
    ensures { result ≡ distance a b }
{
    a.saturating_sub(b) + b.saturating_sub(a)
}

/// Whether a number is nearer to another one than what was found, or nothing was.
fn is_nearer(n: u32, from: u32, found: Option<u32>) -> bool
    ensures { IsTrue result ↔ IfSome found (λ best. distance n from < distance best from) }
{
    match found {
        Some(best) => distance(n, from) < distance(best, from),
        None => true,
    }
}

/// The nearest alpha of one more. The only refusal is NoMemory.
fn with_one_more(
    alloc: Global,
    numbers: &TermsNumbers,
    before: u32,
    found: Option<u32>,
) -> Result<Option<u32>, Refusal>
    requires few { before < 4294967295 }
    requires found { FindsAlpha (Does numbers.now None PlanNumber.Alpha) before numbers.now.top.alpha found }
    ensures found { IfOk result (FindsAlpha (Does numbers.now None PlanNumber.Alpha) (before + 1) numbers.now.top.alpha) }
    ensures refused { FailsForMemory result }
{
    let alpha = before + 1;
    if !is_nearer(alpha, numbers.top.alpha, found) {
        return Ok(found);
    }
    let does = all_do(alloc, numbers, PlanNumber::Alpha, alpha)?;
    if does { Ok(Some(alpha)) } else { Ok(found) }
}

/// The alpha nearest to a plan's own, from 1 to the pages of a block, with which each die meets its bound and passes its
/// tests with the caps, the collect periods and the collect deadlines that go with it; none where it would with no alpha.
/// The only refusal is NoMemory.
pub fn nearest_alpha(alloc: Global, numbers: &TermsNumbers) -> Result<Option<u32>, Refusal>
    ensures found { IfOk result
        (FindsAlpha (Does numbers.now None PlanNumber.Alpha) numbers.now.top.pages numbers.now.top.alpha) }
    ensures refused { FailsForMemory result }
{
    let mut found: Option<u32> = None;
    for before in 0..numbers.top.pages {
        found = with_one_more(alloc, numbers, before, found)?;
    }
    Ok(found)
}
