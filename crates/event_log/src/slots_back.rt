//! What the slots of a log carried, from the last one back.

ghost use Rattle.std.specs.Prelude.{◌≡◌, ◌<◌, ◌++◌, [], replicate, IfSome, MatchOption};
ghost use Rattle.std.specs.List.{filter_map};
ghost use Rattle.event_log.specs.Slots.{slot_by};
ghost use Rattle.event_log.specs.Spread.{spread, AreSome};

use crate::deeds::Deed;
use crate::runs::Run;
use slot_types::JobNo;
use std::marker::Model;

/// `count` slots one after the other that carried the same: the job or collection that had them, or nothing.
#[derive(Clone, Copy, PartialEq, Eq, Debug, Drop)]
pub struct SlotRun {
    pub number: Option<JobNo>,
    pub count: u32,
}

/// What slots carried, lent by a log and taken away from the end. Contracts see what is left, by slot.
#[derive(Drop)]
pub struct SlotsBack<'a> {
    runs: &'a [Run<Deed>],
}

impl<'a> Model for SlotsBack<'a> {
    ghost use Rattle.late_cert.specs.Schedule.{Slots};
    ghost use Rattle.std.specs.List.{filter_map};
    ghost use Rattle.event_log.specs.Slots.{slot_by};
    ghost use Rattle.event_log.specs.Spread.{spread, AreSome};

    ghost Value = { Slots };

    ghost view = { λ s. filter_map slot_by (spread s.runs.now) };

    ghost invariant = { λ s. AreSome s.runs.now };
}

impl<'a> SlotsBack<'a> {
    /// The slots of these runs of deeds.
    pub(crate) fn new(runs: &'a [Run<Deed>]) -> SlotsBack<'a>
        requires { AreSome runs.now }
        ensures { result ≡ filter_map slot_by (spread runs.now) }
    {
        SlotsBack { runs }
    }

    /// Takes the last slots away, as many as one record of the log has, or none where no slot is left. It passes over
    /// the arrivals after them.
    pub fn pop(&mut self) -> Option<SlotRun>
        ensures slots { MatchOption result (self.old ≡ []) (λ run.
            self.old ≡ self.new ++ replicate run.count run.number) }
        ensures some { IfSome result (λ run. 0 < run.count) }
    {
        while let Some((last, before)) = self.runs.split_last() {
            self.runs = before;
            if let Some(number) = last.item.slot() {
                return Some(SlotRun {
                    number,
                    count: last.count,
                });
            }
        }
        None
    }
}
