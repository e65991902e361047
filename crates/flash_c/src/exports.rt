//! What C does with a die.

ghost use Rattle.std.specs.Prelude.{◌≡◌, ◌≢◌, ◌⊎◌, ◌<◌, ◌==◌, None, Some, IsSome, IfSome, IfOk, IfErr, OnErr, true, false, ◌≤◌};
ghost use Rattle.std.specs.List.{list_all};
ghost use Rattle.slot_types.specs.declared.events.Event.TheVariants as events;
ghost use Rattle.slot_core.specs.Calls.{HasEntered};
ghost use Rattle.slot_core.specs.Core.{nothing_reserved, with_slots, with_arrivals};
ghost use Rattle.slot_core.specs.Renewals.{MayBeRenewed, renewed_core};
ghost use Rattle.stepped_die.specs.Stepped.{Stepped};
ghost use Rattle.stepped_die.specs.Steps.{IsNew, HasBegun, HasFailed, RefusesArrival, WouldSpend};
ghost use Rattle.flash_c.specs.Codes.{two};
ghost use Rattle.flash_c.specs.Names.{page_in, is_of_a_kind, ops_looked_at, ops_in};
ghost use Rattle.flash_c.specs.Plans.{plan_in, IsTimed};
ghost use Rattle.flash_c.specs.Slots.{call_of};
ghost use Rattle.flash_c.specs.Answers.{SaysNoPlan, SaysRefusal, SaysReply, SaysUnbegun};
ghost use Rattle.flash_c.specs.Checkpoints.{SaysUnrenewed};

use crate::codes::{
    BAD_KIND, NO_MEMORY, OK, no_numbers, of_refusal, of_renewal, of_step, renewal_why, why_of,
};
use crate::handles::{Handle, put, take};
use crate::lists::put_waived;
use crate::names::{FEW_OPS, MOST_OPS, are_of_a_kind, page_in, put_ops, seen};
use crate::plans::plan_in;
use crate::shapes::{
    FlashCall, FlashName, FlashOp, FlashPlan, FlashReply, FlashTask, FlashWaived, FlashWhy,
};
use crate::slots::{call_of, caller_of, reply_of};
use crate::times::may_be_used;
use slot_core::new_reply;
use slot_types::{JobNo, Op, TaskNo};
use std::alloc::Global;
use stepped_die::{StepRefusal, SteppedDie};

/// Makes a die in an empty handle.
#[unsafe(no_mangle)]
pub extern "C" fn flash_new(
    alloc: Global,
    die: &mut Handle,
    plan: &FlashPlan,
    tasks: &[FlashTask],
) -> u32
    requires empty { die.old.value ≡ None }
    ensures made { result ≡ 0 → IsSome die.new.value }
    ensures new { result ≡ 0 → IfSome die.new.value (IsNew (plan_in plan.now tasks.now)) }
    ensures timed { result ≡ 0 → IsTimed (plan_in plan.now tasks.now) }
    ensures refused { result ≢ 0 → die.new.value ≡ None }
    ensures cause { result ≢ 0 → SaysNoPlan (plan_in plan.now tasks.now) result }
{
    let plan = match plan_in(alloc, plan, tasks) {
        Ok(plan) => plan,
        Err(refusal) => return of_refusal(refusal),
    };
    match may_be_used(&plan) {
        Ok(()) => {}
        Err(refusal) => return of_refusal(refusal),
    }
    let made = match SteppedDie::new(alloc, plan) {
        Ok(made) => made,
        Err(refusal) => return of_refusal(refusal),
    };
    match Box::new(alloc, made) {
        Ok(boxed) => {
            put(die, boxed);
            OK
        }
        Err(_) => NO_MEMORY,
    }
}

/// Frees a die, and leaves its handle empty.
#[unsafe(no_mangle)]
pub extern "C" fn flash_free(alloc: Global, die: &mut Handle)
    requires full { IsSome die.old.value }
    ensures empty { die.new.value ≡ None }
{
    let _ = take(alloc, die);
}

/// Gives operations of C to a die.
fn submit_ops(
    alloc: Global,
    die: &mut SteppedDie,
    caller: u32,
    task: u32,
    release: u32,
    due: u32,
    ops: &[FlashOp],
) -> Result<JobNo, StepRefusal>
    ensures taken { IfOk result (λ number.
        HasEntered caller (events.Submit task release due (ops_in ops.now)) number die.old.core
        die.new.core) }
    ensures cause { IfErr result
        (RefusesArrival release (events.Submit task release due (ops_in ops.now)) die.old die.new) }
    ensures refused { OnErr result (die.new ≡ die.old) }
{
    let looked_at = seen(ops);
    let count = looked_at.len();
    if count <= FEW_OPS {
        let mut places = [Op::Read(0); FEW_OPS];
        put_ops(&mut places, looked_at);
        die.submit(alloc, caller, TaskNo(task), release, due, &places[..count])
    } else {
        let mut places = [Op::Read(0); MOST_OPS];
        put_ops(&mut places, looked_at);
        die.submit(alloc, caller, TaskNo(task), release, due, &places[..count])
    }
}

/// Accepts a job, and writes its number.
#[unsafe(no_mangle)]
pub extern "C" fn flash_submit(
    alloc: Global,
    die: &mut Handle,
    caller: u32,
    task: u32,
    release: u32,
    due: u32,
    ops: &[FlashOp],
    number: &mut u32,
    why: &mut FlashWhy,
) -> u32
    ghost held: { Stepped }
    requires full { die.old.value ≡ Some held }
    ensures full { IsSome die.new.value }
    ensures taken { result ≡ 0 → IfSome die.new.value (λ after.
        HasEntered caller (events.Submit task release due (ops_in ops.now)) number.new held.core
        after.core) }
    ensures refused { result ≢ 0 → die.new.value ≡ Some held }
    ensures silent { result ≢ 0 → number.new ≡ number.old }
    ensures well { result ≡ 0 → why.new ≡ why.old }
    ensures kind { list_all is_of_a_kind (ops_looked_at ops.now) ≡ false
        → (result ≡ 102) × (why.new ≡ two 0 0) }
    ensures cause { list_all is_of_a_kind (ops_looked_at ops.now) ≡ true → result ≢ 0 →
        SaysRefusal
        (RefusesArrival release (events.Submit task release due (ops_in ops.now)) held held) result
        why.new }
{
    if !are_of_a_kind(seen(ops)) {
        *why = no_numbers();
        return BAD_KIND;
    }
    let mut boxed = take(alloc, die);
    let taken = submit_ops(alloc, &mut boxed, caller, task, release, due, ops);
    put(die, boxed);
    match taken {
        Ok(job) => {
            *number = job.0;
            OK
        }
        Err(refusal) => {
            *why = why_of(refusal);
            of_step(refusal)
        }
    }
}

/// Accepts a collection, and writes its number.
#[unsafe(no_mangle)]
pub extern "C" fn flash_collect(
    alloc: Global,
    die: &mut Handle,
    caller: u32,
    task: u32,
    release: u32,
    due: u32,
    number: &mut u32,
    why: &mut FlashWhy,
) -> u32
    ghost held: { Stepped }
    requires full { die.old.value ≡ Some held }
    ensures full { IsSome die.new.value }
    ensures taken { result ≡ 0 → IfSome die.new.value (λ after.
        HasEntered caller (events.Collect task release due) number.new held.core after.core) }
    ensures refused { result ≢ 0 → die.new.value ≡ Some held }
    ensures silent { result ≢ 0 → number.new ≡ number.old }
    ensures well { result ≡ 0 → why.new ≡ why.old }
    ensures cause { result ≢ 0
        → SaysRefusal (RefusesArrival release (events.Collect task release due) held held) result
        why.new }
{
    let mut boxed = take(alloc, die);
    let taken = boxed.collect(alloc, caller, TaskNo(task), release, due);
    put(die, boxed);
    match taken {
        Ok(job) => {
            *number = job.0;
            OK
        }
        Err(refusal) => {
            *why = why_of(refusal);
            of_step(refusal)
        }
    }
}

/// Begins the present slot, and writes what the device is to do.
#[unsafe(no_mangle)]
pub extern "C" fn flash_begin(
    alloc: Global,
    die: &mut Handle,
    caller: u32,
    call: &mut FlashCall,
) -> u32
    ghost held: { Stepped }
    requires full { die.old.value ≡ Some held }
    ensures full { IsSome die.new.value }
    ensures begun { result ≡ 0 → IfSome die.new.value (λ after. IfSome after.begun (λ begun.
        HasBegun caller begun held after × (call.new ≡ call_of begun))) }
    ensures cause { result ≢ 0 → SaysUnbegun held result }
    ensures memory { 0 < held.core.reserved.slots → result ≢ 1 }
    ensures stands { result ≡ 0 → ¬ WouldSpend held }
    ensures refused { result ≢ 0 → die.new.value ≡ Some held }
    ensures silent { result ≢ 0 → call.new ≡ call.old }
{
    let mut boxed = take(alloc, die);
    let said = boxed.begin(alloc, caller);
    put(die, boxed);
    match said {
        Ok(begun) => {
            *call = call_of(begun);
            OK
        }
        Err(refusal) => of_step(refusal),
    }
}

/// Ends the slot that has begun, with what the device answered. The collections that were waived go into `waived`, as
/// far as there is room.
#[unsafe(no_mangle)]
pub extern "C" fn flash_end(
    alloc: Global,
    die: &mut Handle,
    ok: u32,
    name: &FlashName,
    reply: &mut FlashReply,
    waived: &mut [FlashWaived],
) -> u32
    ghost held: { Stepped }
    requires full { die.old.value ≡ Some held }
    ensures full { IsSome die.new.value }
    ensures ended { result ≡ 0 → IfSome die.new.value (λ after.
        SaysReply (ok == 1) (page_in name.now) held after reply.new waived.old waived.new) }
    ensures failed { result ≡ 15
        → IfSome die.new.value (HasFailed (ok == 1) (page_in name.now) held) }
    ensures refused { result ≢ 0 → result ≢ 15
        → ((result ≡ 16) ⊎ (result ≡ 101)) × (die.new.value ≡ Some held) }
    ensures silent { result ≢ 0 → (reply.new ≡ reply.old) × (waived.new ≡ waived.old) }
{
    let bytes = page_in(name);
    let mut said = new_reply(alloc);
    let mut boxed = take(alloc, die);
    let caller = caller_of(boxed.begun());
    let ended = boxed.end(ok == 1, bytes, &mut said);
    put(die, boxed);
    match ended {
        Ok(()) => {
            put_waived(waived, said.waived.as_slice());
            *reply = reply_of(caller, &said);
            OK
        }
        Err(refusal) => of_step(refusal),
    }
}

/// Takes the memory for `slots` later slots. Each renewal reserves as many again.
#[unsafe(no_mangle)]
pub extern "C" fn flash_reserve(alloc: Global, die: &mut Handle, slots: u32) -> u32
    ghost held: { Stepped }
    requires full { die.old.value ≡ Some held }
    ensures full { IsSome die.new.value }
    ensures reserved { result ≡ 0
        → IfSome die.new.value (λ after. after ≡ record held { core = with_slots slots held.core }) }
    ensures succeeds { slots ≤ held.core.reserved.slots → result ≡ 0 }
    ensures refused { result ≢ 0 → (result ≡ 1) × (die.new.value ≡ Some held) }
{
    let mut boxed = take(alloc, die);
    let reserved = boxed.reserve(slots);
    put(die, boxed);
    match reserved {
        Ok(()) => OK,
        Err(refusal) => of_refusal(refusal),
    }
}

/// Takes the memory for `jobs` later jobs and collections, with `operations` operations in all. Each renewal reserves
/// as many again.
#[unsafe(no_mangle)]
pub extern "C" fn flash_reserve_jobs(
    alloc: Global,
    die: &mut Handle,
    jobs: u32,
    operations: u32,
) -> u32
    ghost held: { Stepped }
    requires full { die.old.value ≡ Some held }
    ensures full { IsSome die.new.value }
    ensures reserved { result ≡ 0 → IfSome die.new.value (λ after.
        after ≡ record held { core = with_arrivals jobs operations held.core }) }
    ensures succeeds { jobs ≤ held.core.reserved.arrivals
        → operations ≤ held.core.reserved.operations → result ≡ 0 }
    ensures refused { result ≢ 0 → (result ≡ 1) × (die.new.value ≡ Some held) }
{
    let mut boxed = take(alloc, die);
    let reserved = boxed.reserve_arrivals(jobs, operations);
    put(die, boxed);
    match reserved {
        Ok(()) => OK,
        Err(refusal) => of_refusal(refusal),
    }
}

/// Starts the log anew at a quiet moment, and gives back the memory of the log so far, that which is reserved too.
#[unsafe(no_mangle)]
pub extern "C" fn flash_renew_giving_back(
    alloc: Global,
    die: &mut Handle,
    why: &mut FlashWhy,
) -> u32
    ghost held: { Stepped }
    requires full { die.old.value ≡ Some held }
    ensures full { IsSome die.new.value }
    ensures renewed { result ≡ 0 → IfSome die.new.value (λ after. after ≡ record held {
      core = record (renewed_core held.core) {
        reserved = nothing_reserved;
        lasting = nothing_reserved;
      };
    }) }
    ensures may { result ≡ 0 → MayBeRenewed held.core }
    ensures well { result ≡ 0 → why.new ≡ why.old }
    ensures cause { result ≢ 0 → SaysUnrenewed held result why.new }
    ensures refused { result ≢ 0 → die.new.value ≡ Some held }
{
    let mut boxed = take(alloc, die);
    let renewed = boxed.renew_giving_back(alloc);
    put(die, boxed);
    match renewed {
        Ok(()) => OK,
        Err(refusal) => {
            *why = renewal_why(refusal);
            of_renewal(refusal)
        }
    }
}

/// Starts the log anew at a quiet moment. What ever was reserved is reserved again.
#[unsafe(no_mangle)]
pub extern "C" fn flash_renew(alloc: Global, die: &mut Handle, why: &mut FlashWhy) -> u32
    ghost held: { Stepped }
    requires full { die.old.value ≡ Some held }
    ensures full { IsSome die.new.value }
    ensures renewed { result ≡ 0 → IfSome die.new.value (λ after.
        after ≡ record held { core = renewed_core held.core }) }
    ensures may { result ≡ 0 → MayBeRenewed held.core }
    ensures well { result ≡ 0 → why.new ≡ why.old }
    ensures cause { result ≢ 0 → SaysUnrenewed held result why.new }
    ensures refused { result ≢ 0 → die.new.value ≡ Some held }
{
    let mut boxed = take(alloc, die);
    let renewed = boxed.renew();
    put(die, boxed);
    match renewed {
        Ok(()) => OK,
        Err(refusal) => {
            *why = renewal_why(refusal);
            of_renewal(refusal)
        }
    }
}
