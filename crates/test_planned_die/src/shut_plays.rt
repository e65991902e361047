//! A table is played on a new die, which is then shut down; another one is played on the die that goes on from there.

ghost use Rattle.std.specs.Prelude.{◌≡◌, IfOk};
ghost use Rattle.flash_volume.specs.Checkpoints.{IsAsLeft};

use crate::ongoing_played::play;
use crate::ongoing_steps::Turn;
use crate::plans::{Plan, SHAPE};
use crate::shut_dies::{resumed, shut};
use die_checkpoint::Checkpoint;
use flash_die::{MemoryNand, Nand};
use ongoing_die::{OngoingCheckpointRefusal, OngoingDie, OngoingRefusal, OngoingResumeRefusal};
use planned_die::PlanRefusal;
use slot_types::Refusal;
use std::alloc::Global;
use std::env::Env;
use std::process::Abort;
use test_memory::Memory;

/// Why a die doesn't go on.
#[derive(Clone, Copy, PartialEq, Eq, Debug, Drop)]
pub(crate) enum Unplayed {
    New(OngoingRefusal),
    Untaken(OngoingCheckpointRefusal),
    Unresumed(OngoingResumeRefusal),
    /// It goes on, and shouldn't.
    Resumed,
}

/// What is played.
#[derive(Drop)]
pub(crate) struct Shutdown<'a> {
    pub(crate) before: &'a [Turn<'a>],
    /// A plan of which the die doesn't go on, and why. The device is handed back, and the die goes on as `again` says.
    pub(crate) refused: Option<(Plan, OngoingResumeRefusal)>,
    pub(crate) again: Plan,
    pub(crate) after: &'a [Turn<'a>],
}

/// The device, handed back by a die that doesn't go on with the plan that is to be refused, if there is one.
fn after_refusal<N: Nand>(
    rt: &(impl Abort + Env),
    alloc: Global,
    device: N,
    taken: &Checkpoint,
    refused: Option<(Plan, OngoingResumeRefusal)>,
) -> Result<N, Unplayed>
    requires left { IsAsLeft taken.now (N.blocks device) (N.failures device) }
    ensures same { IfOk result (λ after. after ≡ device) }
{
    let (plan, want) = match refused {
        Some(refused) => refused,
        None => return Ok(device),
    };
    match resumed(Memory::of(rt), alloc, plan, device, taken) {
        Ok(_) => Err(Unplayed::Resumed),
        Err(no) => {
            let got = no.refusal;
            assert!(rt; got == want, "want {want:?}, got {got:?}");
            Ok(no.device)
        }
    }
}

/// The second table is played on a die that goes on from the checkpoint.
fn plays_again<N: Nand>(
    rt: &(impl Abort + Env),
    alloc: Global,
    device: N,
    taken: &Checkpoint,
    played: &Shutdown,
) -> Result<(), Unplayed>
    requires left { IsAsLeft taken.now (N.blocks device) (N.failures device) }
{
    let memory = Memory::of(rt);
    let mut again = match resumed(memory, alloc, played.again, device, taken) {
        Ok(again) => again,
        Err(no) => return Err(Unplayed::Unresumed(no.refusal)),
    };
    play(rt, memory, &mut again, alloc, played.after);
    Ok(())
}

/// The die goes on from a checkpoint of this one, and the second table is played on it.
fn goes_on_again<N: Nand>(
    rt: &(impl Abort + Env),
    alloc: Global,
    mut die: OngoingDie<N>,
    played: &Shutdown,
) -> Result<(), Unplayed> {
    let taken = match shut(Memory::of(rt), &mut die, alloc) {
        Ok(taken) => taken,
        Err(refusal) => return Err(Unplayed::Untaken(refusal)),
    };
    let device = after_refusal(rt, alloc, die.into_device(), &taken, played.refused)?;
    plays_again(rt, alloc, device, &taken, played)
}

/// Plays both tables, the first one on a new die.
fn plays_once(
    rt: &(impl Abort + Env),
    alloc: Global,
    plan: Plan,
    played: &Shutdown,
) -> Result<(), Unplayed> {
    let no_memory = Unplayed::New(OngoingRefusal::Plan(PlanRefusal::Die(Refusal::NoMemory)));
    let device = match MemoryNand::new(alloc, SHAPE) {
        Ok(device) => device,
        Err(_) => return Err(no_memory),
    };
    let of_die = match plan.of_die(alloc) {
        Ok(of_die) => of_die,
        Err(_) => return Err(no_memory),
    };
    let terms = match plan.terms(alloc) {
        Ok(terms) => terms,
        Err(_) => return Err(no_memory),
    };
    match OngoingDie::new(alloc, of_die, terms, plan.longest, device) {
        Ok(die) => {
            let mut die = die;
            play(rt, Memory::of(rt), &mut die, alloc, played.before);
            goes_on_again(rt, alloc, die, played)
        }
        Err(refusal) => Err(Unplayed::New(refusal)),
    }
}

/// The same. Where memory is scarce and is refused for the die, another one is made.
pub(crate) fn shuts_down(
    rt: &(impl Abort + Env),
    alloc: Global,
    plan: Plan,
    played: &Shutdown,
) -> Result<(), Unplayed> {
    match plays_once(rt, alloc, plan, played) {
        Err(Unplayed::New(OngoingRefusal::Plan(PlanRefusal::Die(Refusal::NoMemory))))
            if Memory::of(rt).asks_again() => plays_once(rt, alloc, plan, played),
        answer => answer,
    }
}
