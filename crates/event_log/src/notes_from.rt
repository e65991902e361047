//! The notes of a log in order, from one of them on.

ghost use Rattle.std.specs.Prelude.{◌≡◌, ◌∷◌, [], IfNone, MatchOption};
ghost use Rattle.event_log.specs.NotesFrom.{notes_on, IsSoundRest};

use crate::deeds::Deed;
use crate::items_from::ItemsFrom;
use crate::waived_of::{WaivedOf, parted_at};
use crate::waivers::Waiver;
use std::marker::Model;

/// What a log keeps of an event: who called, what was done, and the collections that were waived in it.
#[derive(Drop)]
pub struct NoteParts<'a> {
    pub caller: u32,
    pub deed: Deed,
    pub waived: WaivedOf<'a>,
}

/// The notes of a log from one of them on, lent by the log and taken away from the front. Contracts see those that are
/// left, the oldest first.
#[derive(Drop)]
pub struct NotesFrom<'a> {
    deeds: ItemsFrom<'a, Deed>,
    callers: ItemsFrom<'a, u32>,
    waivers: &'a [Waiver],
    /// How many notes stand before the first that is left.
    place: u32,
}

impl<'a> Model for NotesFrom<'a> {
    ghost use Rattle.std.specs.Prelude.{List};
    ghost use Rattle.event_log.specs.Notes.{Note};
    ghost use Rattle.event_log.specs.NotesFrom.{notes_on, IsSoundRest};

    ghost Value = { List Note };

    ghost view = { λ n. notes_on n.place n.deeds n.callers n.waivers.now };

    ghost invariant = { λ n. IsSoundRest n.place n.deeds n.callers n.waivers.now };
}

impl<'a> NotesFrom<'a> {
    /// The notes of these deeds and callers, of which the first has this place, and of these waivers.
    pub(crate) fn new(
        deeds: ItemsFrom<'a, Deed>,
        callers: ItemsFrom<'a, u32>,
        waivers: &'a [Waiver],
        place: u32,
    ) -> NotesFrom<'a>
        requires { IsSoundRest place deeds callers waivers.now }
        ensures { result ≡ notes_on place deeds.entry callers.entry waivers.now }
    {
        NotesFrom {
            deeds,
            callers,
            waivers,
            place,
        }
    }

    /// Takes the first note away, if there is one.
    pub fn pop(&mut self) -> Option<NoteParts<'a>>
        ensures notes { MatchOption result (self.old ≡ []) (λ note. self.old
            ≡ record { caller = note.caller; deed = note.deed; waived = note.waived } ∷ self.new) }
        ensures none_left { IfNone result (self.new ≡ []) }
    {
        let deed = self.deeds.pop()?;
        let caller = self.callers.pop()?;
        self.place += 1;
        let (waivers, later) = parted_at(self.waivers, self.place);
        self.waivers = later;
        Some(NoteParts {
            caller,
            deed,
            waived: WaivedOf::new(waivers),
        })
    }
}
