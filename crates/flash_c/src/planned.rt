//! What C does with a die that keeps its plan itself.

ghost use Rattle.std.specs.Prelude.{◌≡◌, ◌≢◌, ◌+◌, ◌==◌, None, Some, IsSome, IfSome, IsSomeAnd, true, false, take, vec_capacity};
ghost use Rattle.std.specs.List.{list_all};
ghost use Rattle.slot_types.specs.Places.{place_of as place_in_log};
ghost use Rattle.die_log.specs.Model.Log.{now, job_at};
ghost use Rattle.die_log.specs.Model.Flash.{cells};
ghost use Rattle.slot_core.specs.Outcomes.{outcome_at, head_at};
ghost use Rattle.ongoing_die.specs.Standing.{OngoingParts};
ghost use Rattle.stepped_die.specs.declared.mirror.MirrorNand.{MirrorNand};
ghost use Rattle.stepped_plan.specs.Stages.{AreParts};
ghost use Rattle.flash_c.specs.declared.kept.KeptDie.{KeptDie};
ghost use Rattle.flash_c.specs.Checkpoints.{place_of};
ghost use Rattle.flash_c.specs.Conversions as says;
ghost use Rattle.flash_c.specs.Lists.{array_with};
ghost use Rattle.flash_c.specs.Names.{is_of_a_kind, name_of, page_in};
ghost use Rattle.flash_c.specs.Plans.{plan_in};
ghost use Rattle.flash_c.specs.Planned.{HasRoom, SaysBegun, SaysEnd, SaysKept, SaysNoKept, SaysTaken, SaysUnasked, SaysUnbegun, SaysUnended, kind_of, life_of, ops_of, terms_in, unasked, waiting_count};

use crate::checkpoints::place_of;
use crate::codes::{BAD_KIND, NO_MEMORY, OK, of_refusal};
use crate::counts::count_of;
use crate::kept::KeptDie;
use crate::lists::put_waived;
use crate::names::{are_of_a_kind, page_in};
use crate::planned_codes::{ask_why, no_plan_why, of_ask, of_no_plan, of_slot, unasked};
use crate::planned_handles::{PlannedHandle, put_kept, take_kept};
use crate::planned_said::{kind_of, life_of, taken_of, terms_in};
use crate::plans::plan_in;
use crate::queries::put_reads;
use crate::said::{job_of, outcome_of};
use crate::shapes::{
    FlashCall, FlashJob, FlashLife, FlashName, FlashOp, FlashOutcome, FlashPlace, FlashPlan,
    FlashReply, FlashTaken, FlashTask, FlashTerms, FlashUnasked, FlashWaived,
};
use crate::slots::{call_of, caller_of, reply_of};
use slot_types::{JobNo, TaskNo};
use std::alloc::Global;

/// Makes a die in an empty handle.
#[unsafe(no_mangle)]
pub extern "C" fn flash_planned_new(
    alloc: Global,
    die: &mut PlannedHandle,
    plan: &FlashPlan,
    tasks: &[FlashTask],
    terms: &[FlashTerms],
    longest: u32,
    why: &mut FlashUnasked,
) -> u32
    requires empty { die.old.value ≡ None }
    ensures made { result ≡ 0 → IsSome die.new.value }
    ensures new { result ≡ 0
        → IfSome die.new.value (SaysKept (plan_in plan.now tasks.now) (terms_in terms.now) longest) }
    ensures refused { result ≢ 0 → die.new.value ≡ None }
    ensures well { result ≡ 0 → why.new ≡ why.old }
    ensures cause { result ≢ 0
        → SaysNoKept (plan_in plan.now tasks.now) (terms_in terms.now) longest result why.new }
{
    let (plan, terms) = match (plan_in(alloc, plan, tasks), terms_in(alloc, terms)) {
        (Ok(plan), Ok(terms)) => (plan, terms),
        _ => {
            *why = unasked(0, 0);
            return NO_MEMORY;
        }
    };
    let made = match KeptDie::new(alloc, plan, terms, longest) {
        Ok(made) => made,
        Err(refusal) => {
            *why = no_plan_why(refusal);
            return of_no_plan(refusal);
        }
    };
    match Box::new(alloc, made) {
        Ok(boxed) => {
            put_kept(die, boxed);
            OK
        }
        Err(_) => {
            *why = unasked(0, 0);
            NO_MEMORY
        }
    }
}

/// Frees a die, and leaves its handle empty.
#[unsafe(no_mangle)]
pub extern "C" fn flash_planned_free(alloc: Global, die: &mut PlannedHandle)
    requires full { IsSome die.old.value }
    ensures empty { die.new.value ≡ None }
{
    let _ = take_kept(alloc, die);
}

/// Asks for a job, or for a burst where `burst` isn't 0.
#[unsafe(no_mangle)]
pub extern "C" fn flash_planned_ask(
    alloc: Global,
    die: &mut PlannedHandle,
    burst: u32,
    caller: u32,
    task: u32,
    ops: &[FlashOp],
    taken: &mut FlashTaken,
    why: &mut FlashUnasked,
) -> u32
    ghost held: { KeptDie }
    requires full { die.old.value ≡ Some held }
    ensures full { IsSome die.new.value }
    ensures room { IfSome die.new.value (λ after. vec_capacity after.ops ≡ vec_capacity held.ops) }
    ensures kind { list_all is_of_a_kind (take (vec_capacity held.ops) ops.now) ≡ false
        → (result ≡ 102) × (why.new ≡ unasked 0 0) × (die.new.value ≡ Some held) }
    ensures taken { result ≡ 0 → IfSome die.new.value (λ after.
        SaysTaken (kind_of burst) caller task (ops_of held ops.now) held.plan after.plan taken.new) }
    ensures cause { list_all is_of_a_kind (take (vec_capacity held.ops) ops.now) ≡ true → result ≢ 0
        → IfSome die.new.value (λ after.
        SaysUnasked (kind_of burst) caller task (ops_of held ops.now) held.plan after.plan result why.new) }
    ensures silent { result ≢ 0 → taken.new ≡ taken.old }
    ensures well { result ≡ 0 → why.new ≡ why.old }
{
    let mut boxed = take_kept(alloc, die);
    let looked_at = boxed.seen(ops);
    if !are_of_a_kind(looked_at) {
        put_kept(die, boxed);
        *why = unasked(0, 0);
        return BAD_KIND;
    }
    let said = boxed.ask(alloc, caller, kind_of(burst), task, looked_at);
    put_kept(die, boxed);
    match said {
        Ok(answer) => {
            *taken = taken_of(answer);
            OK
        }
        Err(stop) => {
            *why = ask_why(stop);
            of_ask(stop)
        }
    }
}

/// Begins the present slot, and writes what the device is to do.
#[unsafe(no_mangle)]
pub extern "C" fn flash_planned_begin(
    alloc: Global,
    die: &mut PlannedHandle,
    caller: u32,
    call: &mut FlashCall,
) -> u32
    ghost held: { KeptDie }
    requires full { die.old.value ≡ Some held }
    ensures full { IsSome die.new.value }
    ensures room { IfSome die.new.value (λ after. after.ops ≡ held.ops) }
    ensures begun { result ≡ 0
        → IfSome die.new.value (λ after. SaysBegun caller held.plan after.plan call.new) }
    ensures cause { result ≢ 0
        → IfSome die.new.value (λ after. SaysUnbegun caller held.plan after.plan result) }
    ensures silent { result ≢ 0 → call.new ≡ call.old }
{
    let mut boxed = take_kept(alloc, die);
    let said = boxed.plan.begin(alloc, caller);
    put_kept(die, boxed);
    match said {
        Ok(begun) => {
            *call = call_of(begun);
            OK
        }
        Err(stop) => of_slot(stop),
    }
}

/// Ends the slot that has begun, with what the device answered. The collections that were waived go into `waived`, as
/// far as there is room.
#[unsafe(no_mangle)]
pub extern "C" fn flash_planned_end(
    alloc: Global,
    die: &mut PlannedHandle,
    ok: u32,
    name: &FlashName,
    reply: &mut FlashReply,
    waived: &mut [FlashWaived],
) -> u32
    ghost held: { KeptDie }
    requires full { die.old.value ≡ Some held }
    ensures full { IsSome die.new.value }
    ensures room { IfSome die.new.value (λ after. after.ops ≡ held.ops) }
    ensures ended { result ≡ 0 → IfSome die.new.value (λ after.
        SaysEnd (ok == 1) (page_in name.now) held.plan after.plan reply.new waived.old waived.new) }
    ensures cause { result ≢ 0 → IfSome die.new.value (λ after.
        SaysUnended (ok == 1) (page_in name.now) held.plan after.plan result) }
    ensures silent { result ≢ 0 → (reply.new ≡ reply.old) × (waived.new ≡ waived.old) }
{
    let bytes = page_in(name);
    let mut boxed = take_kept(alloc, die);
    let caller = caller_of(boxed.plan.begun());
    let said = boxed.plan.end(alloc, ok == 1, bytes);
    put_kept(die, boxed);
    match said {
        Ok(answer) => {
            put_waived(waived, answer.waived.as_slice());
            *reply = reply_of(caller, &answer);
            OK
        }
        Err(stop) => of_slot(stop),
    }
}

/// The present slot of the clock of all lives.
#[unsafe(no_mangle)]
pub extern "C" fn flash_planned_clock(alloc: Global, die: &mut PlannedHandle) -> u64
    ghost held: { KeptDie }
    requires full { die.old.value ≡ Some held }
    ensures same { die.new.value ≡ Some held }
    ensures clock { (parts : OngoingParts MirrorNand) → AreParts held.plan parts
        → result ≡ parts.die.first + now parts.die.core.log }
{
    let boxed = take_kept(alloc, die);
    let clock = boxed.plan.clock();
    put_kept(die, boxed);
    clock
}

/// The present life.
#[unsafe(no_mangle)]
pub extern "C" fn flash_planned_life(
    alloc: Global,
    die: &mut PlannedHandle,
    life: &mut FlashLife,
) -> u32
    ghost held: { KeptDie }
    requires full { die.old.value ≡ Some held }
    ensures same { die.new.value ≡ Some held }
    ensures life { (parts : OngoingParts MirrorNand) → AreParts held.plan parts
        → life.new ≡ life_of parts.die }
    ensures well { result ≡ 0 }
{
    let boxed = take_kept(alloc, die);
    let said = life_of(boxed.plan.die());
    put_kept(die, boxed);
    *life = said;
    OK
}

/// What a job or a collection of the present life was accepted with.
#[unsafe(no_mangle)]
pub extern "C" fn flash_planned_job(
    alloc: Global,
    die: &mut PlannedHandle,
    number: u32,
    job: &mut FlashJob,
) -> u32
    ghost held: { KeptDie }
    requires full { die.old.value ≡ Some held }
    ensures same { die.new.value ≡ Some held }
    ensures said { (parts : OngoingParts MirrorNand) → AreParts held.plan parts → result ≡ 0
        → IsSomeAnd (head_at parts.die.core.log number) (λ head. job.new ≡ says.job_of head) }
    ensures unknown { (parts : OngoingParts MirrorNand) → AreParts held.plan parts → result ≢ 0
        → (result ≡ 17) × (job_at parts.die.core.log number ≡ None) }
    ensures silent { result ≢ 0 → job.new ≡ job.old }
{
    let boxed = take_kept(alloc, die);
    let said = boxed.plan.die().core().job(JobNo(number));
    put_kept(die, boxed);
    match said {
        Ok(head) => {
            *job = job_of(head);
            OK
        }
        Err(refusal) => of_refusal(refusal),
    }
}

/// What became of a job or a collection of the present life; what its reads gave goes into `reads`, as far as there is
/// room.
#[unsafe(no_mangle)]
pub extern "C" fn flash_planned_outcome(
    alloc: Global,
    die: &mut PlannedHandle,
    job: u32,
    outcome: &mut FlashOutcome,
    reads: &mut [FlashName],
) -> u32
    ghost held: { KeptDie }
    requires full { die.old.value ≡ Some held }
    ensures same { die.new.value ≡ Some held }
    ensures said { (parts : OngoingParts MirrorNand) → AreParts held.plan parts → result ≡ 0
        → IsSomeAnd (outcome_at parts.die.core.start parts.die.core.log job) (λ said.
        outcome.new ≡ says.outcome_of said) }
    ensures reads { (parts : OngoingParts MirrorNand) → AreParts held.plan parts → result ≡ 0
        → IsSomeAnd (outcome_at parts.die.core.start parts.die.core.log job) (λ said.
        reads.new ≡ array_with name_of reads.old (says.reads_in said)) }
    ensures silent { result ≢ 0 → (outcome.new ≡ outcome.old) × (reads.new ≡ reads.old) }
{
    let boxed = take_kept(alloc, die);
    let said = boxed.plan.die().core().outcome(alloc, JobNo(job));
    put_kept(die, boxed);
    match said {
        Ok(said) => {
            put_reads(reads, &said);
            *outcome = outcome_of(&said);
            OK
        }
        Err(refusal) => of_refusal(refusal),
    }
}

/// The cell in which a logical page lies, of a die that is stopped, too; a page that the die doesn't have lies nowhere.
#[unsafe(no_mangle)]
pub extern "C" fn flash_planned_place(
    alloc: Global,
    die: &mut PlannedHandle,
    page: u32,
    place: &mut FlashPlace,
) -> u32
    ghost held: { KeptDie }
    requires full { die.old.value ≡ Some held }
    ensures same { die.new.value ≡ Some held }
    ensures place { (parts : OngoingParts MirrorNand) → AreParts held.plan parts → place.new
        ≡ place_of (place_in_log (cells parts.die.core.start parts.die.core.log).places page) }
    ensures well { result ≡ 0 }
{
    let boxed = take_kept(alloc, die);
    let found = boxed.plan.die().core().place(page);
    put_kept(die, boxed);
    *place = place_of(found);
    OK
}

/// How many operations the task's ask has that waits for the next life; 0 where none waits.
#[unsafe(no_mangle)]
pub extern "C" fn flash_planned_waiting(
    alloc: Global,
    die: &mut PlannedHandle,
    task: u32,
    count: &mut u32,
) -> u32
    ghost held: { KeptDie }
    requires full { die.old.value ≡ Some held }
    ensures same { die.new.value ≡ Some held }
    ensures count { (parts : OngoingParts MirrorNand) → AreParts held.plan parts
        → count.new ≡ waiting_count parts.waiting task }
    ensures well { result ≡ 0 }
{
    let boxed = take_kept(alloc, die);
    let found = match boxed.plan.waiting(TaskNo(task)) {
        Some(ops) => count_of(ops.len()),
        None => 0,
    };
    put_kept(die, boxed);
    *count = found;
    OK
}
