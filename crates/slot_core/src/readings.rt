//! The log of a die, note by note.

ghost use Rattle.slot_core.specs.Readings.{TellsRest};

use crate::die_core::DieCore;
use event_log::NotesFrom;
use flash_die::Nand;

impl<N: Nand> DieCore<N> {
    /// What the log notes of its entries from this one on, counted from 0, the oldest first; nothing where it has no more. A
    /// note names a job, and the place of its operation, of which [`job_record`](DieCore::job_record) tells the rest.
    ///
    /// To find the first one takes a step for each record before it.
    pub fn notes_from(&self, from: u32) -> NotesFrom<'_>
        ensures { TellsRest self.now.log from result }
    {
        self.events.notes_from(from)
    }
}
