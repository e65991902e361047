//! Runners with the rings by which their batches come, and go back.

ghost use Rattle.std.specs.Prelude.{◌≡◌, ◌<◌, ◌∷◌, ◌++◌, [], IfOk, IfSome, length};
ghost use Rattle.rtrb.specs.Ring.{known_items, received, sent};
ghost use Rattle.slot_types.specs.Refusal.{FailsForMemory};

use crate::runner::Runner;
use rtrb::{Consumer, Producer, Protocol, PushError, RingBuffer};
use slot_types::Refusal;
use std::alloc::Global;
use std::marker::{Model, PhantomData};
use std::snapshot::Snapshot;
use std::sync::Wait;
use std::thread::Parker;

/// How many batches of a runner wait to be run, at most.
const BATCHES_AHEAD: usize = 2;

/// How many emptied batches may be on their way back.
const BATCHES_BACK: usize = 4;

/// Batches that a runner may be given one after the other.
pub struct InOrder<M>(PhantomData<M>);

impl<M: Runner<B>, B> Protocol<B> for InOrder<M> {
    ghost allows = { M.may_follow };
}

/// Batches that were emptied.
pub struct Emptied<M>(PhantomData<M>);

impl<M: Runner<B>, B> Protocol<B> for Emptied<M> {
    ghost allows = { λ before batch. M.is_empty batch };
}

/// Where the batches of a runner are sent from.
#[derive(Drop)]
pub(crate) struct Sender<M: Runner<B>, B: Drop> {
    pub(crate) batches: Producer<B, Global, InOrder<M>>,
    /// Emptied batches on their way back.
    used: Consumer<B, Global, Emptied<M>>,
    /// The runner as it was before all batches.
    pub(crate) first: Snapshot<M>,
}

/// A runner, and where its batches arrive.
#[derive(Drop)]
pub(crate) struct Post<M: Runner<B>, B: Drop> {
    batches: Consumer<B, Global, InOrder<M>>,
    /// Emptied batches on their way back.
    used: Producer<B, Global, Emptied<M>>,
    runner: M,
}

impl<M: Runner<B>, B: Drop> Model for Post<M, B> {
    ghost use Rattle.rtrb.specs.Ring.{received};
    ghost use Rattle.die_service.specs.Posts.{PostState};
    ghost use Rattle.die_service.specs.Runners.{WasGiven};

    ghost Value = { PostState M B };

    ghost view = { λ p. record { batches = p.batches; runner = p.runner } };

    ghost invariant = { λ p. WasGiven M.begins M.runs (received p.batches) p.runner };
}

impl<M: Runner<B>, B: Drop> Sender<M, B> {
    ghost use Rattle.die_service.specs.Posts.{IsSameSender};

    /// A batch that came back, if one has.
    pub(crate) fn emptied(&mut self) -> Option<B>
        ensures empty { IfSome result M.is_empty }
        ensures same { self.new.batches ≡ self.old.batches }
        ensures first { self.new.first.value ≡ self.old.first.value }
    {
        self.used.pop().ok()
    }

    /// Sends a batch. It waits on this parker until there is room: where no other thread runs the die, no more batches may
    /// be sent than fit before it is run.
    pub(crate) fn send<R: Wait>(&mut self, rt: &R, batch: B, parker: &Parker)
        requires follows { M.may_follow (sent self.old.batches) batch }
        ensures sent { sent self.new.batches ≡ sent self.old.batches ++ batch ∷ [] }
        ensures same { IsSameSender self.old self.new }
    {
        let mut batch = batch;
        for _ in rt.forever() {
            match self.batches.push(batch) {
                Ok(()) => return,
                Err(PushError::Full(again)) => batch = again,
            }
            parker.park(rt);
        }
        unreachable!()
    }
}

impl<M: Runner<B>, B: Drop> Post<M, B> {
    ghost use Rattle.die_service.specs.Posts.{BeginsAs, IsLinked, IsSamePost, TakesKnown};

    /// A runner, and where its batches are sent from. The only refusal is NoMemory.
    pub(crate) fn new(alloc: Global, runner: M) -> Result<(Sender<M, B>, Post<M, B>), Refusal>
        requires { M.begins runner }
        ensures begins { IfOk result (λ made. BeginsAs M.runs runner made.0 made.1) }
        ensures refused { FailsForMemory result }
    {
        let (sender, batches) = RingBuffer::with_protocol(alloc, BATCHES_AHEAD)?;
        let (used, back) = RingBuffer::with_protocol(alloc, BATCHES_BACK)?;
        let sender = Sender {
            batches: sender,
            used: back,
            first: Snapshot::of(&runner),
        };
        let post = Post {
            batches,
            used,
            runner,
        };
        Ok((sender, post))
    }

    /// Runs the batch that was sent next, which has arrived, once its sender knows of the room.
    fn run_known(&mut self, alloc: Global, sender: &Parker)
        requires { 0 < length (known_items self.old.batches) }
        ensures same { IsSamePost M.runs self.old self.new }
        ensures taken { TakesKnown self.old self.new }
    {
        let mut batch = self.batches.pop_known();
        sender.unpark();
        self.runner.run(alloc, &mut batch);
        // A batch that has no room on its way back is given up.
        let _ = self.used.push(batch);
    }

    /// Runs the batch that was sent next, if one has arrived, and answers whether one has. Its sender waits for room on
    /// this parker.
    pub(crate) fn run_next(&mut self, alloc: Global, sender: &Parker) -> bool
        ensures { IsSamePost M.runs self.old self.new }
    {
        if self.batches.is_empty() {
            return false;
        }
        self.run_known(alloc, sender);
        true
    }

    /// Runs all batches that were sent by this sender and haven't been run yet. Where a worker ran them there are none,
    /// which no contract says.
    pub(crate) fn run_rest(&mut self, alloc: Global, sender: &mut Sender<M, B>)
        requires linked { IsLinked M.runs sender.old self.old }
        ensures same { IsSamePost M.runs self.old self.new }
        ensures all { received self.new.batches ≡ sent sender.old.batches }
    {
        let left = self.batches.slots_beside(&mut sender.batches);
        let nobody = Parker::new();
        for _ in 0..left {
            self.run_known(alloc, &nobody);
        }
    }

    /// The runner.
    pub(crate) fn into_runner(self) -> M
        ensures { result ≡ self.runner }
    {
        self.runner
    }
}
