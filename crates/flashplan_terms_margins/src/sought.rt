//! How far a number of a task's terms may change, the rest being as it is. Each number is found by halves: terms that ask
//! for less do where terms do that ask for more.

ghost use Rattle.std.specs.Prelude.{◌≤◌, ◌<◌};
ghost use Rattle.flashplan_terms_margins.specs.Changes.{Does, FindsLeast, FindsMost, IsAlike};

use crate::attempts::{Attempt, tried};
use crate::numbers::{Number, with_number};
use demand_rules::TaskTerms;
use terms_texts::DieTerms;

/// A die whose number was sought, and what was found: none where the die wouldn't do with the number that asks for least.
#[derive(Drop)]
pub(crate) struct Sought {
    /// It differs from the die before in the terms of that task alone, if at all.
    pub(crate) made: DieTerms,
    pub(crate) found: Option<u32>,
}

/// How far a number may grow, of those from `from` to `to`.
pub(crate) fn most(
    made: DieTerms,
    task: usize,
    own: &TaskTerms,
    which: Number,
    from: u32,
    to: u32,
) -> Sought
    requires { to < 4294967295 }
    ensures alike { IsAlike task result.made made }
    ensures found { FindsMost (Does made task own.now which) from to result.found }
{
    let Attempt { made, does } = tried(made, task, with_number(which, own, from));
    if !does || to < from {
        return Sought { made, found: None };
    }
    let mut trial = made;
    let mut with = from;
    let mut beyond = to + 1;
    while with + 1 < beyond {
        let middle = with + (beyond - with) / 2;
        let Attempt { made, does } = tried(trial, task, with_number(which, own, middle));
        trial = made;
        if does {
            with = middle;
        } else {
            beyond = middle;
        }
    }
    Sought {
        made: trial,
        found: Some(with),
    }
}

/// How far a number may shrink, of those from `from`, which is at least 1, to `to`.
pub(crate) fn least(
    made: DieTerms,
    task: usize,
    own: &TaskTerms,
    which: Number,
    from: u32,
    to: u32,
) -> Sought
    requires { 1 ≤ from }
    ensures alike { IsAlike task result.made made }
    ensures found { FindsLeast (Does made task own.now which) from to result.found }
{
    let Attempt { made, does } = tried(made, task, with_number(which, own, to));
    if !does || to < from {
        return Sought { made, found: None };
    }
    let mut trial = made;
    let mut with = to;
    let mut beyond = from - 1;
    while beyond + 1 < with {
        let middle = beyond + (with - beyond) / 2;
        let Attempt { made, does } = tried(trial, task, with_number(which, own, middle));
        trial = made;
        if does {
            with = middle;
        } else {
            beyond = middle;
        }
    }
    Sought {
        made: trial,
        found: Some(with),
    }
}
