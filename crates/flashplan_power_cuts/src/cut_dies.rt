//! A die on a part in memory, whose power goes during a call.

ghost use Rattle.std.specs.Prelude.{◌≡◌, ◌<◌, ◌++◌, [], None, Some, IfOk, OnOk, IsSome, IfSome, false};
ghost use Rattle.std.specs.Box.{box_value};
ghost use Rattle.slot_types.specs.Arrivals.{IsArrival};
ghost use Rattle.slot_types.specs.Refusal.{FailsForMemory};
ghost use Rattle.slot_types.specs.declared.limits.TheConstants.{MAX_SLOT};
ghost use Rattle.die_log.specs.Model.Log.{now};
ghost use Rattle.flashplan_script_runs.specs.RunningDies.{TakesSlot, running_of as core_running};
ghost use Rattle.flashplan_power_cuts.specs.CutDies.{AsksDie, EndsSlot, refusal_by, running_of};
ghost use Rattle.flashplan_power_cuts.specs.Writes.{listed, write_in, writes_of};

use crate::page_writes::PageWrite;
use crate::said::Lost;
use crate::trials::Trials;
use die_mount::Label;
use flashplan_labelled_parts::{Misuse, Part, PartCall};
use flashplan_script_runs::ScriptDie;
use slot_core::{NextAct, new_reply};
use slot_types::{Act, Event, Op, PageData, Place, Refusal, SlotReply, TaskNo};
use std::alloc::Global;
use std::marker::Model;
use stepped_die::{Begun, Call, StepRefusal, SteppedDie};

/// Why a die on a part runs no longer.
#[derive(Clone, Copy, PartialEq, Eq, Drop)]
pub enum Ended {
    /// The power goes during this call of the part.
    Cut(PartCall),
    /// The part doesn't do a call.
    Misused(Misuse),
    /// A read gave other bytes than its cell was programmed with.
    Misread,
    /// What is noted beside the die found no memory.
    NoMemory,
}

/// The part beneath a die, and what is noted of the run.
#[derive(Drop)]
struct Beneath {
    part: Part,
    /// The writes of the lives before.
    earlier: Vec<PageWrite>,
    /// Those of the log, the oldest first.
    writes: Vec<PageWrite>,
    /// How many calls of the part came.
    calls: u64,
    /// In which call the power goes, the first being 1; in none where there is no such call.
    at: Option<u64>,
    /// What is tried at each call.
    trials: Option<Trials>,
}

/// A die on a part in memory. Its power goes in a call of the part, before any of it is done. A slot in which it does
/// is not in the log: the die has begun it.
#[derive(Drop)]
pub struct CutDie {
    die: Box<SteppedDie>,
    beneath: Beneath,
    ended: Option<Ended>,
}

impl Model for CutDie {
    ghost use Rattle.flashplan_power_cuts.specs.CutDies.{Cutting};

    ghost Value = { Cutting };

    ghost use Rattle.flashplan_power_cuts.specs.CutDies.{cutting_of, IsCutting};

    ghost view = { cutting_of };

    ghost invariant = { λ d. IsCutting (cutting_of d) };
}

/// The page that an act programs.
fn programmed(runs: Option<NextAct>) -> u32 {
    match runs {
        Some(NextAct::Write { page } | NextAct::CopyProgram { page }) => page,
        _ => 0,
    }
}

/// What a slot that has begun will do.
fn act_of(begun: &Begun) -> Option<NextAct> {
    match begun.runs {
        Some((_, act)) => Some(act),
        None => None,
    }
}

/// A cell of the die, as the part numbers it.
fn on_part(die: &SteppedDie, place: Place) -> Place {
    Place {
        block: die.part_block(place.block),
        page: place.page,
    }
}

/// The call of the part that a slot needs which has begun, if it needs one.
pub fn part_call(die: &SteppedDie, begun: &Begun) -> Option<PartCall> {
    match begun.call {
        Some(Call::Read { place, .. }) => Some(PartCall::Read {
            place: on_part(die, place),
        }),
        Some(
            Call::Program {
                place,
                bytes,
                erases,
            },
        ) => Some(PartCall::Program {
            place: on_part(die, place),
            label: Label {
                page: programmed(act_of(begun)),
                serial: die.part().serial,
            },
            erases,
            bytes,
        }),
        Some(Call::Erase { block, .. }) => Some(PartCall::EraseSlot {
            block: die.part_block(block),
        }),
        Some(Call::Trim { .. }) | None => None,
    }
}

/// What a slot wrote that was carried out.
fn written(reply: &SlotReply) -> Option<PageWrite>
    ensures { result ≡ write_in reply.now.ran }
{
    match reply.ran {
        Some((_, Act::Write { page, bytes })) => Some(PageWrite { page, bytes }),
        _ => None,
    }
}

impl Beneath {
    /// Makes the call of the part that a slot needs which has begun. Answers what was read; or why the die runs no
    /// longer.
    fn call(&mut self, alloc: Global, die: &SteppedDie, begun: &Begun) -> Result<PageData, Ended>
        requires { die.now.core.stopped ≡ false }
        ensures earlier { self.new.earlier.items ≡ self.old.earlier.items }
        ensures writes { self.new.writes.items ≡ self.old.writes.items }
    {
        let Some(call) = part_call(die, begun) else {
            return Ok(PageData::BLANK);
        };
        self.calls = self.calls.saturating_add(1);
        if self.try_call(alloc, die, call).is_err() {
            return Err(Ended::NoMemory);
        }
        if self.at == Some(self.calls) {
            return Err(Ended::Cut(call));
        }
        match self.part.carry_out(call) {
            Ok(bytes) => Ok(bytes),
            Err(misuse) => Err(Ended::Misused(misuse)),
        }
    }

    /// Tries what is to be tried at a call. The only refusal is NoMemory.
    fn try_call(&mut self, alloc: Global, die: &SteppedDie, call: PartCall) -> Result<(), Refusal>
        requires { die.now.core.stopped ≡ false }
        ensures part { self.new.part ≡ self.old.part }
        ensures earlier { self.new.earlier.items ≡ self.old.earlier.items }
        ensures writes { self.new.writes.items ≡ self.old.writes.items }
        ensures calls { self.new.calls ≡ self.old.calls }
        ensures at { self.new.at ≡ self.old.at }
    {
        match &mut self.trials {
            Some(trials) => {
                let lost = Lost {
                    die,
                    earlier: self.earlier.as_slice(),
                    writes: self.writes.as_slice(),
                };
                trials.try_call(alloc, lost, &self.part, call, self.calls)
            }
            None => Ok(()),
        }
    }
}

/// Notes a write, if there is one. The only refusal is NoMemory.
fn note(writes: &mut Vec<PageWrite>, write: Option<PageWrite>) -> Result<(), Refusal>
    ensures ok { OnOk result (writes.new.items ≡ writes.old.items ++ listed write) }
    ensures refused { FailsForMemory result }
{
    if let Some(write) = write {
        writes.push(write)?;
    }
    Ok(())
}

/// Ends the slot that has begun, with these bytes, and notes what it wrote.
#[tactic(auto, using(crate::proofs::Running::ends_noting, crate::proofs::Running::unnoted, crate::proofs::Running::misreads))]
fn end_slot(
    alloc: Global,
    die: &mut SteppedDie,
    writes: &mut Vec<PageWrite>,
    bytes: PageData,
) -> Result<(), Ended>
    requires begun { IsSome die.old.begun }
    requires caller { IfSome die.old.begun (λ begun. begun.caller ≡ 0) }
    requires runs { die.old.core.stopped ≡ false }
    ensures ended { EndsSlot result (core_running die.old.core) writes.old.items
        (core_running die.new.core) writes.new.items }
    ensures idle { OnOk result (die.new.begun ≡ None) }
{
    let mut reply = new_reply(alloc);
    match die.end(true, bytes, &mut reply) {
        Ok(()) => {}
        Err(_) => return Err(Ended::Misread),
    }
    match note(writes, written(&reply)) {
        Ok(()) => Ok(()),
        Err(_) => Err(Ended::NoMemory),
    }
}

/// Carries out a slot on a die that runs.
#[tactic(auto, using(crate::proofs::Running::from_begun, crate::proofs::Running::stops_begun, crate::proofs::Running::stops_unbegun))]
fn step_die(alloc: Global, die: &mut SteppedDie, beneath: &mut Beneath) -> Result<(), Ended>
    requires idle { die.old.begun ≡ None }
    requires runs { die.old.core.stopped ≡ false }
    requires few { now die.old.core.log < MAX_SLOT }
    ensures ended { EndsSlot result (core_running die.old.core) beneath.old.writes.items
        (core_running die.new.core) beneath.new.writes.items }
    ensures idle { OnOk result (die.new.begun ≡ None) }
    ensures earlier { beneath.new.earlier.items ≡ beneath.old.earlier.items }
{
    // It was begun afresh or by a mount: nobody keeps a checkpoint of it.
    die.checkpoint_void();
    let begun = match die.begin(alloc, 0) {
        Ok(begun) => begun,
        Err(StepRefusal::Die(Refusal::NoMemory)) => return Err(Ended::NoMemory),
        Err(_) => unreachable!(),
    };
    match beneath.call(alloc, die, &begun) {
        Ok(bytes) => end_slot(alloc, die, &mut beneath.writes, bytes),
        Err(ended) => Err(ended),
    }
}

/// How a slot is refused in which a die ends.
fn refusal_by(ended: Ended) -> Refusal
    ensures { result ≡ refusal_by ended }
{
    match ended {
        Ended::NoMemory => Refusal::NoMemory,
        _ => Refusal::DeviceFault,
    }
}

impl CutDie {
    /// A die on a part, on which nothing was done in this life; `earlier` are the writes of the lives before.
    pub fn new(
        alloc: Global,
        die: Box<SteppedDie>,
        part: Part,
        earlier: Vec<PageWrite>,
        at: Option<u64>,
        trials: Option<Trials>,
    ) -> CutDie
        requires idle { (box_value die).begun ≡ None }
        requires runs { (box_value die).core.stopped ≡ false }
        requires empty { (box_value die).core.log ≡ [] }
        ensures die { result.die ≡ box_value die }
        ensures earlier { result.earlier ≡ earlier.items }
        ensures runs { result.ended ≡ None }
    {
        CutDie {
            die,
            beneath: Beneath {
                part,
                earlier,
                writes: Vec::new(alloc),
                calls: 0,
                at,
                trials,
            },
            ended: None,
        }
    }

    /// The die. It isn't stopped, unless a read gave other bytes.
    pub fn die(&self) -> &SteppedDie
        ensures die { result.now ≡ self.now.die }
        ensures runs { (self.now.ended ≡ Some Ended.Misread → ⊥)
            → self.now.die.core.stopped ≡ false }
    {
        &self.die
    }

    /// How many calls of the part came, with that in which the power goes.
    pub fn calls(&self) -> u64
        ensures { result ≡ self.now.calls }
    {
        self.beneath.calls
    }

    /// Why it runs no longer.
    pub fn ended(&self) -> Option<Ended>
        ensures { result ≡ self.now.ended }
    {
        self.ended
    }

    /// What was tried at its calls.
    pub fn trials(&self) -> Option<&Trials> {
        self.beneath.trials.as_ref()
    }

    /// The part.
    pub fn part(&self) -> &Part {
        &self.beneath.part
    }

    /// The run so far, with all that was written: by its log, unless there was no memory for a write.
    pub fn lost(&self) -> Lost<'_>
        ensures die { result.die.now ≡ self.now.die }
        ensures earlier { result.earlier.now ≡ self.now.earlier }
        ensures writes { result.writes.now ≡ self.now.writes }
        ensures noted { (self.now.ended ≡ Some Ended.NoMemory → ⊥)
            → self.now.writes ≡ writes_of self.now.die.core.log }
        ensures runs { (self.now.ended ≡ Some Ended.Misread → ⊥)
            → self.now.die.core.stopped ≡ false }
    {
        Lost {
            die: &self.die,
            earlier: self.beneath.earlier.as_slice(),
            writes: self.beneath.writes.as_slice(),
        }
    }

    /// All writes, once the die is given up.
    pub fn into_writes(self) -> Result<Vec<PageWrite>, Refusal>
        ensures all { IfOk result (λ writes. writes.items ≡ self.earlier ++ self.writes) }
        ensures refused { FailsForMemory result }
    {
        let CutDie { beneath, .. } = self;
        let Beneath {
            mut earlier,
            mut writes,
            ..
        } = beneath;
        earlier.append(&mut writes)?;
        Ok(earlier)
    }

    /// Carries out a slot. It is refused where the die ends in it, or had ended before: with NoMemory where what is
    /// noted finds none, and else with DeviceFault.
    #[tactic(auto, using(crate::proofs::Running::carries, crate::proofs::Running::refuses_now, crate::proofs::Running::refuses_still, crate::proofs::Running::cutting_on, crate::proofs::Running::cutting_stops))]
    fn carry_slot(&mut self, alloc: Global) -> Result<(), Refusal>
        requires { now self.old.die.core.log < MAX_SLOT }
        ensures { TakesSlot result (running_of self.old) (running_of self.new) }
    {
        if let Some(ended) = self.ended {
            return Err(refusal_by(ended));
        }
        match step_die(alloc, &mut self.die, &mut self.beneath) {
            Ok(()) => Ok(()),
            Err(ended) => {
                self.ended = Some(ended);
                Err(refusal_by(ended))
            }
        }
    }

    /// Whether it has ended but for memory.
    fn has_stopped(&self) -> bool
        ensures { result ≡ (running_of self.now).stopped }
    {
        match self.ended {
            None | Some(Ended::NoMemory) => false,
            Some(_) => true,
        }
    }
}

impl ScriptDie for CutDie {
    ghost running = { running_of };

    /// None does: the power may go in any call of its part.
    ghost runs_well = { λ _. ⊥ };

    fn carry_to(&mut self, alloc: Global, slot: u32) -> Result<(), Refusal> {
        for _present in self.die.core().now()..slot {
            match self.carry_slot(alloc) {
                Ok(()) => {}
                Err(_) if self.has_stopped() => return Ok(()),
                Err(_) => return Err(Refusal::NoMemory),
            }
        }
        Ok(())
    }

    fn ask(&mut self, alloc: Global, event: Event) -> Result<Option<Refusal>, Refusal> {
        match self.ended {
            None => Ok(ask_die(&mut self.die, alloc, event)),
            Some(Ended::NoMemory) => Err(Refusal::NoMemory),
            Some(_) => Ok(Some(Refusal::DieStopped)),
        }
    }
}

/// Asks a die that runs, and in no slot, for a job. Answers why it is refused, if it is.
#[tactic(auto, using(crate::proofs::Running::enters, crate::proofs::Running::refuses_row))]
fn ask_job(
    die: &mut SteppedDie,
    alloc: Global,
    task: TaskNo,
    release: u32,
    due: u32,
    ops: &[Op],
) -> Option<Refusal>
    requires idle { die.old.begun ≡ None }
    requires runs { die.old.core.stopped ≡ false }
    ensures asked { AsksDie (Event.Submit task release due ops.now) result die.old.core
        die.new.core }
    ensures idle { die.new.begun ≡ None }
{
    match die.submit(alloc, 0, task, release, due, ops) {
        Ok(_) => None,
        Err(StepRefusal::Die(refusal)) => Some(refusal),
        Err(_) => unreachable!(),
    }
}

/// Asks it for a collection.
#[tactic(auto, using(crate::proofs::Running::enters, crate::proofs::Running::refuses_row))]
fn ask_collection(
    die: &mut SteppedDie,
    alloc: Global,
    task: TaskNo,
    release: u32,
    due: u32,
) -> Option<Refusal>
    requires idle { die.old.begun ≡ None }
    requires runs { die.old.core.stopped ≡ false }
    ensures asked { AsksDie (Event.Collect task release due) result die.old.core die.new.core }
    ensures idle { die.new.begun ≡ None }
{
    match die.collect(alloc, 0, task, release, due) {
        Ok(_) => None,
        Err(StepRefusal::Die(refusal)) => Some(refusal),
        Err(_) => unreachable!(),
    }
}

/// Asks it for what a row says.
fn ask_die(die: &mut SteppedDie, alloc: Global, event: Event) -> Option<Refusal>
    requires arrival { IsArrival event }
    requires idle { die.old.begun ≡ None }
    requires runs { die.old.core.stopped ≡ false }
    ensures asked { AsksDie event result die.old.core die.new.core }
    ensures idle { die.new.begun ≡ None }
{
    match event {
        Event::Submit {
            task,
            release,
            due,
            ops,
        } => ask_job(die, alloc, task, release, due, ops.as_slice()),
        Event::Collect { task, release, due } => ask_collection(die, alloc, task, release, due),
        Event::Slot => unreachable!(),
    }
}
