//! The nearest number with which a plan would do, its other numbers being as they are. It is found by halves: a plan that
//! does with a number does with one that asks for less.

ghost use Rattle.std.specs.Prelude.{◌≡◌, ◌≢◌, ◌≤◌, ◌-◌, ◌↔◌, IfOk, IsTrue, None, Some, max, min};
ghost use Rattle.slot_types.specs.Refusal.{FailsForMemory};
ghost use Rattle.terms_texts.specs.Stores.{IsUsable, die_of};
ghost use Rattle.flashplan_terms_changes.specs.Changes.{Does, FindsNearest, IsNearest, OthersDo, OwnDo, step, with_number};

use crate::plan_numbers::{PlanNumber, with_number};
use flashplan_design::TaskName;
use flashplan_terms_margins::would_do;
use slot_types::Refusal;
use std::alloc::Global;
use terms_texts::{TermsNumbers, die_terms};

/// Whether a die meets its bound and passes its tests with this number. The only refusal is NoMemory.
fn die_does(
    alloc: Global,
    numbers: &TermsNumbers,
    die: u32,
    task: u32,
    which: PlanNumber,
    n: u32,
) -> Result<bool, Refusal>
    ensures does { IfOk result (λ does.
        IsTrue does ↔ IsUsable (with_number which (die_of numbers.now die) task n)) }
    ensures refused { FailsForMemory result }
{
    let made = die_terms(alloc, numbers, die)?;
    let changed = with_number(alloc, which, made, task as usize, n)?;
    Ok(would_do(&changed))
}

/// Whether all dies do with this number. The only refusal is NoMemory.
pub fn all_do(
    alloc: Global,
    numbers: &TermsNumbers,
    which: PlanNumber,
    n: u32,
) -> Result<bool, Refusal>
    ensures does { IfOk result (λ does. IsTrue does ↔ OwnDo numbers.now None which n) }
    ensures refused { FailsForMemory result }
{
    for die in 0..numbers.top.dies {
        let does = die_does(alloc, numbers, die, 0, which, n)?;
        if !does {
            return Ok(false);
        }
    }
    Ok(true)
}

/// Whether the dies do whose number it is: all dies, or that of the task. The only refusal is NoMemory.
fn own_do(
    alloc: Global,
    numbers: &TermsNumbers,
    of: Option<TaskName>,
    which: PlanNumber,
    n: u32,
) -> Result<bool, Refusal>
    ensures does { IfOk result (λ does. IsTrue does ↔ OwnDo numbers.now of which n) }
    ensures refused { FailsForMemory result }
{
    match of {
        None => all_do(alloc, numbers, which, n),
        Some(name) => die_does(alloc, numbers, name.die, name.task, which, n),
    }
}

/// Whether a die is this one, or does as it is. The only refusal is NoMemory.
fn is_own_or_does(
    alloc: Global,
    numbers: &TermsNumbers,
    own: u32,
    die: u32,
) -> Result<bool, Refusal>
    ensures does { IfOk result (λ does. IsTrue does ↔ (die ≢ own → IsUsable (die_of numbers.now die))) }
    ensures refused { FailsForMemory result }
{
    if die == own {
        return Ok(true);
    }
    let made = die_terms(alloc, numbers, die)?;
    Ok(would_do(&made))
}

/// Whether each die but that of the task does as it is. The only refusal is NoMemory.
fn others_than(alloc: Global, numbers: &TermsNumbers, name: TaskName) -> Result<bool, Refusal>
    ensures does { IfOk result (λ does. IsTrue does ↔ OthersDo numbers.now (Some name)) }
    ensures refused { FailsForMemory result }
{
    for die in 0..numbers.top.dies {
        let does = is_own_or_does(alloc, numbers, name.die, die)?;
        if !does {
            return Ok(false);
        }
    }
    Ok(true)
}

/// Whether the other dies do as they are. The only refusal is NoMemory.
fn others_do(alloc: Global, numbers: &TermsNumbers, of: Option<TaskName>) -> Result<bool, Refusal>
    ensures does { IfOk result (λ does. IsTrue does ↔ OthersDo numbers.now of) }
    ensures refused { FailsForMemory result }
{
    match of {
        None => Ok(true),
        Some(name) => others_than(alloc, numbers, name),
    }
}

/// The number after `steps` steps from one to another.
fn step(from: u32, to: u32, steps: u32) -> u32
    requires { steps ≤ max from to - min from to }
    ensures { result ≡ step from to steps }
{
    if from <= to {
        from + steps
    } else {
        from - steps
    }
}

/// How many steps there are from one number to another.
fn span(from: u32, to: u32) -> u32
    ensures { result ≡ max from to - min from to }
{
    if from <= to { to - from } else { from - to }
}

/// The nearest number with which the own dies do, while they don't as they are. The only refusal is NoMemory.
fn halved(
    alloc: Global,
    numbers: &TermsNumbers,
    of: Option<TaskName>,
    which: PlanNumber,
    from: u32,
    to: u32,
) -> Result<u32, Refusal>
    requires fails { ¬ OwnDo numbers.now of which from }
    requires does { OwnDo numbers.now of which to }
    ensures nearest { IfOk result (IsNearest (OwnDo numbers.now of which) from) }
    ensures refused { FailsForMemory result }
{
    let mut without: u32 = 0;
    let mut with = span(from, to);
    while without + 1 < with {
        let middle = without + (with - without) / 2;
        let does = own_do(alloc, numbers, of, which, step(from, to, middle))?;
        if does {
            with = middle;
        } else {
            without = middle;
        }
    }
    Ok(step(from, to, with))
}

/// The nearest number with which the plan does, on the way from the one that it has to another; none where it does as it is,
/// or doesn't with that. The only refusal is NoMemory.
pub fn nearest(
    alloc: Global,
    numbers: &TermsNumbers,
    of: Option<TaskName>,
    which: PlanNumber,
    from: u32,
    to: u32,
) -> Result<Option<u32>, Refusal>
    ensures found { IfOk result (FindsNearest (Does numbers.now of which) from to) }
    ensures refused { FailsForMemory result }
{
    let as_it_is = own_do(alloc, numbers, of, which, from)?;
    if as_it_is {
        return Ok(None);
    }
    let loosest = own_do(alloc, numbers, of, which, to)?;
    if !loosest {
        return Ok(None);
    }
    let others = others_do(alloc, numbers, of)?;
    if !others {
        return Ok(None);
    }
    let n = halved(alloc, numbers, of, which, from, to)?;
    Ok(Some(n))
}
