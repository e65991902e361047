//! In which slot the next collection comes.

ghost use Rattle.std.specs.Prelude.{◌+◌, ◌<◌};
ghost use Rattle.planned_die.specs.OwnCollections.{IsQuiet, AreQuiet};

use demand_rules::TaskTerms;

/// The first slot from `from` on in which a collection of this period comes.
fn next_of(period: u32, from: u32) -> u32
    ensures quiet { IsQuiet period from result }
{
    match from.checked_rem(period) {
        Some(past) if past > 0 => from.saturating_add(period - past),
        _ => from,
    }
}

/// The first slot from `from` on in which a collection of one of these tasks comes.
#[inline(never)]
fn next_collection(tasks: &[TaskTerms], from: u32) -> u32
    ensures quiet { AreQuiet tasks.now from result }
{
    let mut next = u32::MAX;
    for task in tasks {
        next = next.min(next_of(task.collect_period, from));
    }
    next
}

/// A slot before which none of these tasks' collections comes once slot `now` is over, where none came before slot `quiet`.
#[inline(always)]
pub(crate) fn still_quiet(tasks: &[TaskTerms], quiet: u32, now: u32) -> u32
    requires quiet { AreQuiet tasks.now now quiet }
    requires few { now < 4294967295 }
    ensures quiet { AreQuiet tasks.now (now + 1) result }
{
    if now < quiet {
        quiet
    } else {
        next_collection(tasks, now + 1)
    }
}
