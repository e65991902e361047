//! The log of a die, in parts.

ghost use Rattle.std.specs.Prelude.{◌≡◌, ◌+◌, ◌<◌, ◌≤◌, ◌∷◌, ◌^◌, [], true, length, take, drop, reverse, IsOk, OnOk, OnErr};
ghost use Rattle.slot_types.specs.Refusal.{FailsForMemory};
ghost use Rattle.event_log.specs.Spread.{last_of};
ghost use Rattle.event_log.specs.Notes.{Note};
ghost use Rattle.event_log.specs.Slots.{carried_in};
ghost use Rattle.event_log.specs.NoteRecords.{goes_on, records, is_some_number, newest_stands_alone};

use crate::deeds::Deed;
use crate::notes_from::NotesFrom;
use crate::runs::{Run, Runs};
use crate::slots_back::SlotsBack;
use crate::waived_of::parted_at;
use crate::waivers::{Waiver, note_waivers};
use slot_types::{Refusal, Waived};
use std::alloc::Global;
use std::marker::Model;
use std::mem::size_of;

/// The events of a die, kept small: equal neighbours once with their count, callers and waivers beside them, and no
/// bytes.
///
/// Contracts see the events one by one, the newest first, for how many more events and waivers there is room, for how
/// many there is room where the log is empty, how many records of deeds are kept, and how many slots there were when
/// the log was marked, 0 before that.
#[derive(Drop)]
pub struct EventLog {
    deeds: Runs<Deed>,
    callers: Runs<u32>,
    waivers: Vec<Waiver>,
    len: u32,
    /// For how many more events there is room, however few of them are alike.
    room: usize,
    /// For how many more waivers there is room.
    waiver_room: usize,
    /// For how many events there is room where there is none.
    memory: usize,
    /// For how many waivers there is room where there is none.
    waiver_memory: usize,
    /// Whether the newest event came with a waiver.
    waives: bool,
}

// A record of a deed takes 16 bytes, and one of its caller 8.
const _: () = prove!(size_of::<Run<Deed>>() == 16);

const _: () = prove!(size_of::<Run<u32>>() == 8);

/// For how many callers there is room at least, where there is any: one record of a caller serves many events, so that
/// they would be asked for again and again.
const CALLERS_AHEAD: usize = 64;

impl Model for EventLog {
    ghost use Rattle.std.specs.Prelude.{vec_len, vec_capacity};
    ghost use Rattle.event_log.specs.Notes.{Events};
    ghost use Rattle.event_log.specs.SoundLog.{notes_in, slots_before, IsSoundLog, HasPromisedRoom, HasPromisedMemory, IsMarked};

    ghost Value = { Events };

    ghost view = { λ l. record {
      notes = notes_in l.deeds.items l.callers.items l.waivers.items;
      room = l.room;
      waiver_room = l.waiver_room;
      memory = l.memory;
      waiver_memory = l.waiver_memory;
      kept = l.deeds.kept;
      marked = slots_before l.deeds.marked l.deeds.items;
    } };

    ghost invariant = { λ l.
        IsSoundLog l.deeds.items l.callers.items l.waivers.items l.len l.deeds.kept l.callers.kept l.waives
        × HasPromisedRoom l.room l.waiver_room l.deeds.room l.callers.room (vec_len l.waivers) (vec_capacity l.waivers)
        × IsMarked l.deeds.items l.deeds.marked l.callers.marked
        × HasPromisedMemory l.room l.waiver_room l.memory l.waiver_memory l.deeds.memory l.callers.memory (vec_capacity l.waivers) };
}

impl EventLog {
    /// A log without events, and without room for any. It takes no memory.
    pub fn new(alloc: Global) -> EventLog
        ensures { result ≡ record {
          notes = [];
          room = 0;
          waiver_room = 0;
          memory = 0;
          waiver_memory = 0;
          kept = 0;
          marked = 0;
        } }
    {
        EventLog {
            deeds: Runs::new(alloc),
            callers: Runs::new(alloc),
            waivers: Vec::new(alloc),
            len: 0,
            room: 0,
            waiver_room: 0,
            memory: 0,
            waiver_memory: 0,
            waives: false,
        }
    }

    /// Takes all events and the mark away. The log keeps its memory: there is as much room again as there ever was. It
    /// takes none.
    pub fn clear(&mut self)
        ensures events { self.new.notes ≡ [] }
        ensures marked { self.new.marked ≡ 0 }
        ensures room { self.new.room ≡ self.old.memory }
        ensures waiver_room { self.new.waiver_room ≡ self.old.waiver_memory }
        ensures memory { self.new.memory ≡ self.old.memory }
        ensures waiver_memory { self.new.waiver_memory ≡ self.old.waiver_memory }
    {
        self.deeds.clear();
        self.callers.clear();
        self.waivers.clear();
        self.len = 0;
        self.waives = false;
        self.room = self.memory;
        self.waiver_room = self.waiver_memory;
    }

    /// How many events there are.
    pub fn len(&self) -> u32
        ensures { result ≡ length self.now.notes }
    {
        self.len
    }

    /// How many records the events take: maximal runs of alike events, one by itself being one.
    pub fn records(&self) -> u32
        ensures { result ≡ records self.now.notes }
    {
        self.deeds.kept() as u32
    }

    /// How many records of deeds it keeps: one for each maximal run of alike events.
    pub fn kept(&self) -> usize
        ensures kept { result ≡ self.now.kept }
        ensures counted { self.now.kept ≡ records self.now.notes }
    {
        self.deeds.kept()
    }

    /// Marks the log where it ends now, which is after an event that no later one counts as one record with.
    pub fn mark(&mut self)
        requires { newest_stands_alone self.old.notes ≡ true }
        ensures { self.new ≡ record self.old { marked = length (carried_in self.old.notes) } }
    {
        self.deeds.mark();
    }

    /// What the slots before the mark carried, to be taken from the last one back: at once, however many came later.
    pub fn before_mark(&self) -> SlotsBack<'_>
        ensures slots { result ≡ take self.now.marked (carried_in self.now.notes) }
        ensures len { length result ≡ self.now.marked }
    {
        SlotsBack::new(self.deeds.before_mark())
    }

    /// The notes of the events from this place on, counted from 0, to be taken one by one, the oldest first: none where
    /// there are no more events. It takes a step for each record and waiver before it, and no memory.
    pub fn notes_from(&self, from: u32) -> NotesFrom<'_>
        ensures { result ≡ drop from (reverse self.now.notes) }
    {
        let (_, waivers) = parted_at(self.waivers.as_slice(), from);
        NotesFrom::new(
            self.deeds.items_from(from),
            self.callers.items_from(from),
            waivers,
            from,
        )
    }

    /// Makes room for at least `events` more events, and for `waivers` more waivers with them, and never less than
    /// there was. Where there is that room already, this isn't refused. As long as the log keeps its memory it has room
    /// for as many from each [`clear`](EventLog::clear) on. Refused with `NoMemory`, nothing changes.
    #[inline(always)]
    pub fn reserve(&mut self, events: usize, waivers: usize) -> Result<(), Refusal>
        ensures room { OnOk result (events ≤ self.new.room) }
        ensures waiver_room { OnOk result (waivers ≤ self.new.waiver_room) }
        ensures no_less { self.old.room ≤ self.new.room }
        ensures no_less_for_waivers { self.old.waiver_room ≤ self.new.waiver_room }
        ensures lasts { self.new.room ≤ self.new.memory }
        ensures waivers_last { self.new.waiver_room ≤ self.new.waiver_memory }
        ensures memory { self.old.memory ≤ self.new.memory }
        ensures waiver_memory { self.old.waiver_memory ≤ self.new.waiver_memory }
        ensures succeeds { events ≤ self.old.room → waivers ≤ self.old.waiver_room → IsOk result }
        ensures refused { FailsForMemory result }
        ensures events { self.new.notes ≡ self.old.notes }
        ensures kept { self.new.kept ≡ self.old.kept }
        ensures marked { self.new.marked ≡ self.old.marked }
        ensures err { OnErr result (self.new ≡ self.old) }
    {
        if events <= self.room && waivers <= self.waiver_room {
            return Ok(());
        }
        self.grow(events, waivers)
    }

    /// As `reserve`, asking both lists: apart from it, so that a slot that finds its room makes no call.
    #[inline(never)]
    fn grow(&mut self, events: usize, waivers: usize) -> Result<(), Refusal>
        ensures room { OnOk result (events ≤ self.new.room) }
        ensures waiver_room { OnOk result (waivers ≤ self.new.waiver_room) }
        ensures no_less { self.old.room ≤ self.new.room }
        ensures no_less_for_waivers { self.old.waiver_room ≤ self.new.waiver_room }
        ensures lasts { self.new.room ≤ self.new.memory }
        ensures waivers_last { self.new.waiver_room ≤ self.new.waiver_memory }
        ensures memory { self.old.memory ≤ self.new.memory }
        ensures waiver_memory { self.old.waiver_memory ≤ self.new.waiver_memory }
        ensures refused { FailsForMemory result }
        ensures events { self.new.notes ≡ self.old.notes }
        ensures kept { self.new.kept ≡ self.old.kept }
        ensures marked { self.new.marked ≡ self.old.marked }
        ensures err { OnErr result (self.new ≡ self.old) }
    {
        self.deeds.reserve(events)?;
        self.callers.reserve(events.max(CALLERS_AHEAD))?;
        self.waivers.reserve(waivers)?;
        // All that was had, so that the next events seldom ask.
        self.room = self.deeds.room().min(self.callers.room());
        self.waiver_room = self.waivers.capacity() - self.waivers.len();
        self.memory = self.memory.max(self.room);
        self.waiver_memory = self.waiver_memory.max(self.waiver_room);
        Ok(())
    }

    /// Whether an event of this caller goes on with the newest record.
    fn goes_on(&self, caller: u32, deed: &Deed, waived: &[Waived]) -> bool
        ensures { result
            ≡ goes_on (record { caller = caller; deed = deed.now; waived = waived.now })
            self.now.notes }
    {
        if self.waives || !waived.is_empty() {
            return false;
        }
        match self.deeds.last() {
            Some(last) => is_last_caller(&self.callers, caller) && deed.is_alike(last),
            None => false,
        }
    }

    /// Adds an event, with the collections that were waived in it, in room that was made.
    #[inline(always)]
    pub fn push_reserved(&mut self, caller: u32, deed: Deed, waived: &[Waived])
        requires room { 0 < self.old.room }
        requires waiver_room { length waived.now ≤ self.old.waiver_room }
        requires few { length self.old.notes + 1 < 2 ^ 32 }
        ensures events { self.new.notes
            ≡ record { caller = caller; deed = deed; waived = waived.now } ∷ self.old.notes }
        ensures room { self.old.room ≡ self.new.room + 1 }
        ensures waiver_room { self.old.waiver_room ≡ self.new.waiver_room + length waived.now }
        ensures memory { self.new.memory ≡ self.old.memory }
        ensures waiver_memory { self.new.waiver_memory ≡ self.old.waiver_memory }
        ensures marked { self.new.marked ≡ self.old.marked }
    {
        let same_caller = is_last_caller(&self.callers, caller);
        let goes_on = self.goes_on(caller, &deed, waived);
        self.deeds.push_reserved(deed, goes_on);
        self.callers.push_reserved(caller, same_caller);
        note_waivers(&mut self.waivers, self.len, waived);
        self.len += 1;
        self.room -= 1;
        self.waiver_room -= waived.len();
        self.waives = !waived.is_empty();
    }

    /// As `push_reserved` of an idle slot, and quicker where that goes on with the newest record: then it takes none of
    /// the room, so that idle slots in a row needn't ask for it.
    pub fn push_idle(&mut self, caller: u32, waived: &[Waived])
        requires room { 0 < self.old.room }
        requires waiver_room { length waived.now ≤ self.old.waiver_room }
        requires few { length self.old.notes + 1 < 2 ^ 32 }
        ensures events { self.new.notes
            ≡ record { caller = caller; deed = Deed.Idle; waived = waived.now } ∷ self.old.notes }
        ensures room { self.old.room ≤ self.new.room + 1 }
        ensures waiver_room { self.old.waiver_room ≡ self.new.waiver_room + length waived.now }
        ensures memory { self.new.memory ≡ self.old.memory }
        ensures waiver_memory { self.new.waiver_memory ≡ self.old.waiver_memory }
        ensures marked { self.new.marked ≡ self.old.marked }
    {
        if self.goes_on(caller, &Deed::Idle, waived) {
            self.deeds.push_reserved(Deed::Idle, true);
            self.callers.push_reserved(caller, true);
            self.len += 1;
        } else {
            self.push_reserved(caller, Deed::Idle, waived);
        }
    }
}

/// Whether the last caller, if there is one, is this one.
fn is_last_caller(callers: &Runs<u32>, caller: u32) -> bool
    ensures { result ≡ is_some_number (last_of callers.now.items) caller }
{
    match callers.last() {
        Some(last) => caller == last,
        None => false,
    }
}
