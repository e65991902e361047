//! Where the log of a die starts.

ghost use Rattle.std.specs.Prelude.{◌≡◌};
ghost use Rattle.die_log.specs.Model.Start.{Start, fresh};

use crate::mark::Mark;
use slot_types::DiePlan;
use std::marker::Model;

/// Where the log of a die starts. Contracts see the start; a program sees nothing: it takes no memory and no time.
#[derive(Drop)]
pub struct LogStart {
    mark: Mark,
}

impl Model for LogStart {
    ghost use Rattle.die_log.specs.Model.Start.{Start};

    ghost Value = { Start };

    ghost view = { λ s. s.mark.start };
}

impl LogStart {
    /// Any start: the caller picks it.
    pub fn at() -> LogStart
        ghost start: { Start }
        ensures { result ≡ start }
    {
        LogStart { mark: Mark::at() }
    }

    /// The start of a fresh die of this plan.
    pub fn fresh(_plan: &DiePlan) -> LogStart
        ensures { result ≡ fresh _plan.now }
    {
        beside(_plan)
    }
}

/// The start that the caller picks by this plan.
fn beside(_plan: &DiePlan) -> LogStart
    ghost start: { Start }
    ensures { result ≡ start }
{
    LogStart::at()
}
