//! The items of runs in order, from one of them on.

ghost use Rattle.std.specs.Prelude.{◌≡◌, ◌∷◌, [], drop, IfNone, MatchOption};
ghost use Rattle.event_log.specs.Spread.{spread, AreSome};
ghost use Rattle.event_log.specs.NotesFrom.{first_count};

use crate::runs::Run;
use std::marker::Model;

/// The items of runs, lent by a list and taken away from the front. Contracts see those that are left, in order.
#[derive(Drop)]
pub(crate) struct ItemsFrom<'a, T> {
    runs: &'a [Run<T>],
    /// How many items of the first run are left: at least one, where there is a run.
    left: u32,
}

impl<'a, T> Model for ItemsFrom<'a, T> {
    ghost use Rattle.std.specs.Prelude.{List};
    ghost use Rattle.event_log.specs.Spread.{AreSome};
    ghost use Rattle.event_log.specs.NotesFrom.{items_left, IsSomeLeft};

    ghost Value = { List T };

    ghost view = { λ s. items_left s.left s.runs.now };

    ghost invariant = { λ s. AreSome s.runs.now × IsSomeLeft s.left s.runs.now };
}

impl<'a, T> ItemsFrom<'a, T> {
    /// The items of these runs after the first `passed`. It takes a step for each run that it passes over.
    pub(crate) fn new(runs: &'a [Run<T>], passed: u32) -> ItemsFrom<'a, T>
        requires { AreSome runs.now }
        ensures { result ≡ drop passed (spread runs.now) }
    {
        let mut runs = runs;
        let mut passed = passed;
        while let Some((first, later)) = runs.split_first() {
            if passed < first.count {
                return ItemsFrom {
                    runs,
                    left: first.count - passed,
                };
            }
            passed -= first.count;
            runs = later;
        }
        ItemsFrom { runs, left: 0 }
    }
}

impl<'a, T: Copy> ItemsFrom<'a, T> {
    /// Takes the first item away, if there is one.
    pub(crate) fn pop(&mut self) -> Option<T>
        ensures items { MatchOption result (self.old ≡ []) (λ item. self.old ≡ item ∷ self.new) }
        ensures none_left { IfNone result (self.new ≡ []) }
    {
        let (first, later) = self.runs.split_first()?;
        self.left -= 1;
        if self.left == 0 {
            self.runs = later;
            self.left = first_count(later);
        }
        Some(first.item)
    }
}

/// How many items the first run has, if there is one, else none.
fn first_count<T>(runs: &[Run<T>]) -> u32
    ensures { result ≡ first_count runs.now }
{
    match runs.first() {
        Some(first) => first.count,
        None => 0,
    }
}
