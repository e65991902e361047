//! The waivers of a log, which are few, beside its events.

ghost use Rattle.std.specs.Prelude.{◌≡◌, ◌+◌, ◌≤◌, ◌++◌, map, length, vec_len, vec_capacity};
ghost use Rattle.event_log.specs.Waivers.{waiver_of};

use slot_types::Waived;
use std::mem::size_of;

/// A waiver, and the place from 0 of the event that it came with.
#[derive(Clone, Copy, PartialEq, Eq, Debug, Drop)]
pub(crate) struct Waiver {
    pub(crate) event: u32,
    pub(crate) waived: Waived,
}

const _: () = prove!(size_of::<Waiver>() == 12);

/// Adds the waivers of an event, in room that was made.
pub(crate) fn note_waivers(waivers: &mut Vec<Waiver>, event: u32, waived: &[Waived])
    requires { vec_len waivers.old + length waived.now ≤ vec_capacity waivers.old }
    ensures noted { waivers.new.items ≡ waivers.old.items ++ map (waiver_of event) waived.now }
    ensures len { vec_len waivers.new ≡ vec_len waivers.old + length waived.now }
    ensures capacity { vec_capacity waivers.new ≡ vec_capacity waivers.old }
{
    for w in waived {
        waivers.push_reserved(Waiver { event, waived: *w });
    }
}
