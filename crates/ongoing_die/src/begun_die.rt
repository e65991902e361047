//! A slot in two halves, for an owner who makes the device's calls himself.

ghost use Rattle.std.specs.Prelude.{◌≡◌, ◌+◌, true, slice_index_or, option_map, None, IsOk, IfOk, IfErr};
ghost use Rattle.die_log.specs.Model.Log.{now};
ghost use Rattle.die_log.specs.Model.Start.{Start};
ghost use Rattle.slot_types.specs.declared.events.Event.{Event};
ghost use Rattle.slot_types.specs.declared.replies.Reply.{Reply};
ghost use Rattle.slot_core.specs.Calls.{IsCall};
ghost use Rattle.slot_core.specs.NextSlot.{next_slot};
ghost use Rattle.ongoing_log.specs.Ongoing.{Ongoing, ops_of};
ghost use Rattle.ongoing_die.specs.Standing.{OngoingParts, StandsAs};
ghost use Rattle.ongoing_die.specs.OngoingCalls.{HasStopped, IsOngoingSlot};
ghost use Rattle.ongoing_die.specs.BegunSlots.{HasBegunSlot, stopped_in};

use crate::ongoing_die::OngoingDie;
use crate::refusals::{LifeStop, SlotStop};
use crate::waiting::{Waiting, ops_waiting};
use flash_die::Nand;
use ongoing_log::a_die_goes_on_by_itself;
use planned_die::PlannedDie;
use slot_core::NextSlot;
use slot_types::{Op, SlotReply, TaskNo};
use std::alloc::Global;
use std::marker::Model;

/// A die that goes on by itself, in a slot that has begun: the slot's collections have come, and it isn't carried out yet.
/// Nobody asks now: what is asked between two slots is released in the later one.
///
/// Contracts see the die of the present life and what waits, and who began the slot.
#[derive(Drop)]
pub struct BegunDie<N: Nand> {
    die: PlannedDie<N>,
    waiting: Vec<Waiting>,
    quiet: u64,
    caller: u32,
}

impl<N: Nand> Model for BegunDie<N> {
    ghost use Rattle.std.specs.Prelude.{map};
    ghost use Rattle.ongoing_die.specs.Standing.{HaveRoom, IsQuietBefore, ask_in};
    ghost use Rattle.ongoing_die.specs.BegunSlots.{BegunParts, IsBegunDie};

    ghost Value = { BegunParts N };

    ghost view = { λ b. record {
      parts = record { die = b.die; waiting = map ask_in b.waiting.items };
      caller = b.caller;
    } };

    ghost invariant = { λ b. IsBegunDie {N = N} (record {
      parts = record { die = b.die; waiting = map ask_in b.waiting.items };
      caller = b.caller;
    }) × HaveRoom b.die.terms b.waiting.items
        × IsQuietBefore {N = N} b.quiet (record { die = b.die; waiting = map ask_in b.waiting.items }) };
}

/// A die that begins no slot, and why.
#[derive(Drop)]
pub struct NotBegun<N: Nand> {
    pub die: OngoingDie<N>,
    pub stop: LifeStop,
}

/// What a slot that had begun was answered, and the die after it.
#[derive(Drop)]
pub struct CarriedSlot<N: Nand> {
    pub die: OngoingDie<N>,
    pub said: Result<SlotReply, SlotStop>,
}

impl<N: Nand> OngoingDie<N> {
    /// Begins the present slot: where a life has ended the next one begins, what waits for the slot enters, and the collections
    /// come that the plan has in it. It is carried out by [`BegunDie::carry_out`]; both together are a [`slot`](OngoingDie::slot).
    ///
    /// Refused where the whole die carries out no slot, as [`LifeStop`] lists the causes; then the die is handed back as it was.
    /// There is no other refusal: it takes no memory.
    pub fn begin(self, alloc: Global, caller: u32) -> Result<BegunDie<N>, NotBegun<N>>
        ensures begun { IfOk result (λ begun. (first : Start) (d : Ongoing) → StandsAs first d self
            → HasBegunSlot caller first d self begun.parts) }
        ensures caller { IfOk result (λ begun. begun.caller ≡ caller) }
        ensures stopped { IfErr result (λ no. HasStopped self no.stop) }
        ensures unchanged { IfErr result (λ no. no.die ≡ self) }
    {
        let mut ongoing = self;
        match ongoing.go_on(alloc) {
            Ok(()) => {}
            Err(stop) => return Err(NotBegun { die: ongoing, stop }),
        }
        let OngoingDie {
            mut die,
            waiting,
            quiet,
        } = ongoing;
        match die.enter_collections(alloc, caller) {
            Ok(()) => {}
            // The die runs, and its life goes on.
            Err(_) => unreachable!(),
        }
        Ok(BegunDie {
            die,
            waiting,
            quiet,
            caller,
        })
    }
}

impl<N: Nand> BegunDie<N> {
    /// What the slot needs: the job or collection that it is for, and the one call of the device that it makes.
    pub fn next_call(&mut self, alloc: Global) -> NextSlot
        ensures next { result ≡ next_slot self.old.parts.die.core.start self.old.parts.die.core.log }
        ensures unchanged { self.new ≡ self.old }
    {
        match self.die.next_call(alloc) {
            Ok(next) => next,
            // The die runs, and its life goes on.
            Err(_) => unreachable!(),
        }
    }

    /// Carries out the slot. With its beginning it is just a slot of the die before, as [`OngoingDie::slot`] says it: `DeviceFault`
    /// where the device fails, which stops the die, and is the only refusal.
    pub fn carry_out(self, alloc: Global) -> CarriedSlot<N>
        ensures slot { (first : Start) (d : Ongoing) (before : OngoingParts N)
            → HasBegunSlot self.caller first d before self.parts
            → IsOngoingSlot N.ends N.failures N.never_fails self.caller first d result.said before result.die }
        ensures core { IfOk result.said (λ reply. IsCall N.ends N.failures N.never_fails self.caller Event.Slot (Ok (Reply.Slot reply))
            self.parts.die.core result.die.die.core) }
        ensures never { N.never_fails ≡ true → IsOk result.said }
    {
        let BegunDie {
            mut die,
            waiting,
            quiet,
            caller,
        } = self;
        a_die_goes_on_by_itself();
        match die.slot(alloc, caller) {
            Ok(reply) => CarriedSlot {
                die: OngoingDie {
                    die,
                    waiting,
                    quiet,
                },
                said: Ok(reply),
            },
            Err(_) => CarriedSlot {
                die: OngoingDie {
                    die,
                    waiting,
                    quiet,
                },
                said: Err(SlotStop::DeviceFault),
            },
        }
    }

    /// Gives the slot up, whose call of the device its owner has seen fail: the die is stopped, and the slot isn't carried out.
    /// Its collections have come, and the device has had no call.
    pub fn give_up(self) -> OngoingDie<N>
        ensures stops { result ≡ stopped_in self.parts }
        ensures stands { (first : Start) (d : Ongoing) (before : OngoingParts N)
            → HasBegunSlot self.caller first d before self.parts → StandsAs first d result }
    {
        let BegunDie {
            mut die,
            waiting,
            quiet,
            caller: _,
        } = self;
        die.stop();
        OngoingDie {
            die,
            waiting,
            quiet,
        }
    }

    /// The die below, in the life of its log: the slot's collections are in that, and the slot isn't.
    pub fn die(&self) -> &PlannedDie<N>
        ensures { result.now ≡ self.now.parts.die }
    {
        &self.die
    }

    /// The operations of the task's ask that waits, for the next life or for a slot that was asked for, if one does.
    pub fn waiting(&self, task: TaskNo) -> Option<&[Op]>
        ensures { option_map (λ ops. ops.now) result ≡ ops_of (slice_index_or self.now.parts.waiting task None) }
    {
        ops_waiting(&self.waiting, task.0 as usize)
    }

    /// Who began the slot.
    pub fn caller(&self) -> u32
        ensures { result ≡ self.now.caller }
    {
        self.caller
    }

    /// The present slot of the clock of all lives: the one that has begun.
    pub fn clock(&self) -> u64
        ensures { result ≡ self.now.parts.die.first + now self.now.parts.die.core.log }
    {
        self.die.first() + u64::from(self.die.now())
    }
}
