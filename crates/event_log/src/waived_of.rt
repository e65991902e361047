//! The collections that were waived in one event.

ghost use Rattle.std.specs.Prelude.{◌≡◌, ◌++◌, map, length, slice_get};
ghost use Rattle.event_log.specs.SoundLog.{AreBefore, AreFrom, AreInOrder};

use crate::waivers::Waiver;
use slot_types::Waived;
use std::marker::Model;

/// The collections that were waived in an event, lent by a log, in the order in which they were noted.
#[derive(Drop)]
pub struct WaivedOf<'a> {
    waivers: &'a [Waiver],
}

impl<'a> Model for WaivedOf<'a> {
    ghost use Rattle.std.specs.Prelude.{List, map};
    ghost use Rattle.slot_types.specs.declared.replies.Waived.{Waived};

    ghost Value = { List Waived };

    ghost view = { λ w. map (λ waiver. waiver.waived) w.waivers.now };
}

impl<'a> WaivedOf<'a> {
    /// What these waivers waived.
    pub(crate) fn new(waivers: &'a [Waiver]) -> WaivedOf<'a>
        ensures { result ≡ map (λ waiver. waiver.waived) waivers.now }
    {
        WaivedOf { waivers }
    }

    /// How many there are.
    pub fn len(&self) -> usize
        ensures { result ≡ length self.now }
    {
        self.waivers.len()
    }

    /// The one at this place from 0, if there is one.
    pub fn get(&self, place: usize) -> Option<Waived>
        ensures { result ≡ slice_get self.now place }
    {
        match self.waivers.get(place) {
            Some(waiver) => Some(waiver.waived),
            None => None,
        }
    }
}

/// Parts waivers at this place: those of events before it, and the others. It takes a step for each of the former.
pub(crate) fn parted_at(waivers: &[Waiver], place: u32) -> (&[Waiver], &[Waiver])
    requires { AreInOrder waivers.now }
    ensures all { waivers.now ≡ result.0.now ++ result.1.now }
    ensures before { AreBefore place result.0.now }
    ensures from { AreFrom place result.1.now }
    ensures ordered { AreInOrder result.1.now }
{
    let mut count = 0;
    while count < waivers.len() && waivers[count].event < place {
        count += 1;
    }
    waivers.split_at(count)
}
