//! A die behind its lock, as a worker calls it by a pass.

ghost use Rattle.std.specs.Prelude.{◌≡◌};
ghost use Rattle.slot_core.specs.Events.{reply_of_note};
ghost use Rattle.turn_lock.specs.Views.{IsLive, SeesFitting};
ghost use Rattle.die_service.specs.Passes.{IsSlotReply};
ghost use Rattle.die_service.specs.Replies.{HasExactLog};

use crate::die::{Die, DiePass};
use crate::gate::Gate;
use crate::refused::RefusedAt;
use crate::work::Work;
use flash_die::Nand;
use slot_core::{EventHead, ReplyNote, SlotNote};
use slot_types::{LentOps, Reply};
use std::marker::Model;
use std::sync::Wait;

/// A die, a pass of it, and the hook round each slot, as one worker has them. Each call of the die is a turn of its own,
/// and no hook is called in a turn. Contracts see the pass.
#[derive(Drop)]
pub(crate) struct PassWork<'a, N: Nand, G: Gate, R: Wait> {
    rt: &'a R,
    die: &'a Die<N>,
    pass: DiePass<N>,
    gate: &'a G,
}

impl<'a, N: Nand, G: Gate, R: Wait> Model for PassWork<'a, N, G, R> {
    ghost use Rattle.std.specs.Prelude.{◌≡◌};
    ghost use Rattle.die_service.specs.Stores.{DiePass};

    ghost Value = { DiePass };

    ghost view = { λ w. w.pass };

    ghost invariant = { λ w. w.pass.lock ≡ w.die.now };
}

/// The note of a slot.
fn slot_note(note: ReplyNote) -> SlotNote
    requires { IsSlotReply (reply_of_note note) }
    ensures { reply_of_note note ≡ Reply.Slot result }
{
    match note {
        ReplyNote::Slot(slot) => slot,
        _ => unreachable!(),
    }
}

impl<'a, N: Nand, G: Gate, R: Wait> PassWork<'a, N, G, R> {
    /// A pass of the die, which is live, and has seen an exact log.
    pub(crate) fn new(
        rt: &'a R,
        die: &'a Die<N>,
        pass: DiePass<N>,
        gate: &'a G,
    ) -> PassWork<'a, N, G, R>
        requires { pass.lock ≡ die.now }
        ensures pass { result ≡ pass }
        ensures live { IsLive pass.view }
        ensures fits { SeesFitting HasExactLog pass.view }
    {
        let _ = pass.number();
        PassWork {
            rt,
            die,
            pass,
            gate,
        }
    }

    /// The pass.
    pub(crate) fn into_pass(self) -> DiePass<N>
        ensures { result ≡ self.entry }
    {
        self.pass
    }
}

impl<N: Nand, G: Gate, R: Wait> Work for PassWork<'_, N, G, R> {
    ghost use Rattle.die_service.specs.PassWorks.{MayCall};

    ghost does = { MayCall N.never_fails };

    fn before(&mut self, die: u32, slot: u32) {
        self.gate.before(die, slot);
    }

    // Apart from the worker's loop, which mostly asks for slots.
    #[inline(never)]
    fn event(&mut self, head: EventHead, ops: &LentOps) -> Result<ReplyNote, RefusedAt> {
        let die = self.die;
        die.turned.note(self.rt, &mut self.pass, head, ops)
    }

    #[inline(always)]
    fn slot(&mut self) -> Result<SlotNote, RefusedAt> {
        let die = self.die;
        match die
            .turned
            .note(self.rt, &mut self.pass, EventHead::Slot, &LentOps::none())
        {
            Ok(note) => Ok(slot_note(note)),
            Err(refused) => Err(refused),
        }
    }

    fn after(&mut self, die: u32, slot: u32) {
        self.gate.after(die, slot);
    }
}
