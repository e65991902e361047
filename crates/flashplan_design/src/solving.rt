//! The least and the greatest number with which a die would do, the rest being as it is.

ghost use Rattle.flashplan_design.specs.Numbers.{DieDoes, FindsGreatest, FindsLeast};

use crate::attempts::{Attempt, tried};
use crate::numbers::Number;
use slot_types::DiePlan;

/// The least number, of those from `from` to `to`, with which a die meets its bound and passes the test of its times if it
/// has any, the rest being as it is; none where no such number would do. It takes any plan, and no memory.
pub fn least(plan: DiePlan, which: Number, from: u32, to: u32) -> Option<u32>
    ensures { FindsLeast (DieDoes which plan) from to result }
{
    let mut trial = plan;
    for n in from..=to {
        let Attempt { plan, does } = tried(trial, which, n);
        if does {
            return Some(n);
        }
        trial = plan;
    }
    None
}

/// The greatest number, of those from `from` to `to`, with which a die meets its bound and passes the test of its times if
/// it has any, the rest being as it is; none where no such number would do. It takes any plan, and no memory.
pub fn greatest(plan: DiePlan, which: Number, from: u32, to: u32) -> Option<u32>
    ensures { FindsGreatest (DieDoes which plan) from to result }
{
    if to < from {
        return None;
    }
    let span = to - from;
    let mut trial = plan;
    for back in 0..=span {
        let n = to - back;
        let Attempt { plan, does } = tried(trial, which, n);
        if does {
            return Some(n);
        }
        trial = plan;
    }
    None
}
