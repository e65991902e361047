//! A die that keeps its plan is written down, and goes on from there or where a mount ended.

ghost use Rattle.std.specs.Prelude.{◌≡◌, ◌≢◌, ◌⊎◌, false, None, Some, IsSome, IfSome, IfOk, IfErr, map};
ghost use Rattle.die_mount.specs.declared.stage.Stage.TheVariants as stage;
ghost use Rattle.ongoing_die.specs.Resuming.{out_of_memory};
ghost use Rattle.ongoing_die.specs.Standing.{OngoingParts};
ghost use Rattle.planned_die.specs.declared.lacks.Shortage.{Shortage};
ghost use Rattle.planned_die.specs.declared.resumptions.PlanResumeRefusal.TheVariants as plans;
ghost use Rattle.ongoing_die.specs.declared.refusals.OngoingResumeRefusal.TheVariants as refuses;
ghost use Rattle.power_loss.specs.Aside.{on_part};
ghost use Rattle.stepped_die.specs.declared.mirror.MirrorNand.{MirrorNand};
ghost use Rattle.stepped_plan.specs.Stages.{AreParts};
ghost use Rattle.flash_c.specs.declared.kept.KeptDie.{KeptDie};
ghost use Rattle.flash_c.specs.declared.recoveries.Recovery.{Recovery as Stage};
ghost use Rattle.flash_c.specs.declared.recoveries.Recovery.TheVariants as recovery;
ghost use Rattle.flash_c.specs.Checkpoints.{checkpoint_in, part_in, part_of};
ghost use Rattle.flash_c.specs.Names.{page_in};
ghost use Rattle.flash_c.specs.Planned.{terms_in};
ghost use Rattle.flash_c.specs.PlannedResuming.{BeginsKept, HasNotEnded, IsUnbegun, KeepsAt, NoneKeeps, SaysResumed, SaysUnmounted, SaysUnresumed, SaysUnwritten, SaysWritten, three};
ghost use Rattle.flash_c.specs.Plans.{plan_in};

use crate::checkpoints::{
    checkpoint_in, pages_in, part_in, part_of, put_blocks, put_numbers, put_places,
};
use crate::codes::{NO_MEMORY, OK, WRONG_STEP};
use crate::kept::{KeptDie, boxed, no_memory};
use crate::lists::put_names;
use crate::mount_handles::{MountHandle, put_mount, take_mount};
use crate::planned_codes::{of_unresumed, of_unwritten, three, unresumed_why, unwritten_why};
use crate::planned_handles::{PlannedHandle, put_kept, take_kept};
use crate::planned_said::terms_in;
use crate::plans::{copy_of, plan_in};
use crate::recoveries::Recovery;
use crate::shapes::{
    FlashBlock, FlashName, FlashPart, FlashPlace, FlashPlan, FlashTask, FlashTerms, FlashUnresumed,
    FlashWhy,
};
use demand_rules::Terms;
use die_mount::Mount;
use slot_types::PageData;
use std::alloc::Global;
use stepped_plan::OngoingResumeRefusal;

/// What stands on a die between two slots, into the arrays as far as there is room: by logical page its cell and its name, by block
/// its counts, by task its balance; and what is known of the part.
#[unsafe(no_mangle)]
pub extern "C" fn flash_planned_checkpoint(
    alloc: Global,
    die: &mut PlannedHandle,
    places: &mut [FlashPlace],
    names: &mut [FlashName],
    blocks: &mut [FlashBlock],
    balances: &mut [u32],
    spare: &mut u32,
    part: &mut FlashPart,
    why: &mut FlashWhy,
) -> u32
    ghost held: { KeptDie }
    requires full { die.old.value ≡ Some held }
    ensures same { die.new.value ≡ Some held }
    ensures said { result ≡ 0 → SaysWritten held.plan places.old places.new names.old names.new
        blocks.old blocks.new balances.old balances.new spare.new }
    ensures part { result ≡ 0 → part.new ≡ part_of held.plan.part }
    ensures well { result ≡ 0 → why.new ≡ why.old }
    ensures cause { result ≢ 0 → SaysUnwritten held.plan result why.new }
    ensures silent { result ≢ 0 → (places.new ≡ places.old) × (names.new ≡ names.old)
        × (blocks.new ≡ blocks.old) × (balances.new ≡ balances.old) × (spare.new ≡ spare.old)
        × (part.new ≡ part.old) }
{
    let mut boxed = take_kept(alloc, die);
    let taken = boxed.plan.checkpoint(alloc);
    put_kept(die, boxed);
    match taken {
        Err(refusal) => {
            *why = unwritten_why(refusal);
            of_unwritten(refusal)
        }
        Ok(taken) => {
            put_names(names, taken.names.as_slice());
            put_places(places, taken.checkpoint.places.as_slice());
            put_blocks(blocks, taken.checkpoint.blocks.as_slice());
            put_numbers(balances, taken.checkpoint.balances.as_slice());
            *spare = taken.checkpoint.spare;
            *part = part_of(taken.part);
            OK
        }
    }
}

/// Makes a die in an empty handle that goes on from a checkpoint, which stands until it is said void.
#[unsafe(no_mangle)]
pub extern "C" fn flash_planned_resume(
    alloc: Global,
    die: &mut PlannedHandle,
    plan: &FlashPlan,
    tasks: &[FlashTask],
    terms: &[FlashTerms],
    longest: u32,
    places: &[FlashPlace],
    names: &[FlashName],
    blocks: &[FlashBlock],
    balances: &[u32],
    spare: u32,
    part: &FlashPart,
    why: &mut FlashUnresumed,
) -> u32
    requires empty { die.old.value ≡ None }
    ensures made { result ≡ 0 → IsSome die.new.value }
    ensures goes_on { result ≡ 0 → IfSome die.new.value (SaysResumed (plan_in plan.now tasks.now)
        (terms_in terms.now) longest (checkpoint_in places.now blocks.now balances.now spare)
        (map page_in names.now) (part_in part.now)) }
    ensures refused { result ≢ 0 → die.new.value ≡ None }
    ensures cause { result ≢ 0 → result ≢ 1 → SaysUnresumed (plan_in plan.now tasks.now)
        (terms_in terms.now) longest (checkpoint_in places.now blocks.now balances.now spare) result
        why.new }
    ensures memory { result ≡ 1 → why.new ≡ three 0 0 0 }
    ensures well { result ≡ 0 → why.new ≡ why.old }
{
    let (plan, terms) = match (plan_in(alloc, plan, tasks), terms_in(alloc, terms)) {
        (Ok(plan), Ok(terms)) => (plan, terms),
        _ => {
            *why = three(0, 0, 0);
            return NO_MEMORY;
        }
    };
    let (checkpoint, pages) = match (
        checkpoint_in(alloc, places, blocks, balances, spare),
        pages_in(alloc, names),
    ) {
        (Ok(checkpoint), Ok(pages)) => (checkpoint, pages),
        _ => {
            *why = three(0, 0, 0);
            return NO_MEMORY;
        }
    };
    let made = KeptDie::resume(
        alloc,
        plan,
        terms,
        longest,
        &checkpoint,
        pages.as_slice(),
        part_in(part),
    );
    match boxed(alloc, made) {
        Ok(kept) => {
            put_kept(die, kept);
            OK
        }
        Err(refusal) => {
            *why = unresumed_why(refusal);
            of_unresumed(refusal)
        }
    }
}

/// Makes a die that keeps its plan in an empty handle, which begins where the mount has ended, and the mount is over. `names` has by
/// logical page the name of what lies there.
#[unsafe(no_mangle)]
pub extern "C" fn flash_mount_end_planned(
    alloc: Global,
    mount: &mut MountHandle,
    terms: &[FlashTerms],
    longest: u32,
    names: &[FlashName],
    die: &mut PlannedHandle,
    why: &mut FlashUnresumed,
) -> u32
    ghost held: { Stage }
    requires full { mount.old.value ≡ Some held }
    requires empty { die.old.value ≡ None }
    ensures full { IsSome mount.new.value }
    ensures over { result ≡ 0 → mount.new.value ≡ Some recovery.Over }
    ensures made { result ≡ 0 → IsSome die.new.value }
    ensures begins { result ≡ 0 → IfSome die.new.value
        (BeginsKept held (terms_in terms.now) longest (map page_in names.now)) }
    ensures refused { result ≢ 0 → (mount.new.value ≡ Some held) × (die.new.value ≡ None) }
    ensures cause { result ≢ 0 → result ≢ 1 → HasNotEnded held result why.new
        ⊎ SaysUnmounted held (terms_in terms.now) longest result why.new }
    ensures stocked { result ≢ 411 }
    ensures memory { result ≡ 1 → why.new ≡ three 0 0 0 }
    ensures well { result ≡ 0 → why.new ≡ why.old }
{
    let (terms, pages) = match (terms_in(alloc, terms), pages_in(alloc, names)) {
        (Ok(terms), Ok(pages)) => (terms, pages),
        _ => {
            *why = three(0, 0, 0);
            return NO_MEMORY;
        }
    };
    let mut boxed = take_mount(alloc, mount);
    match begun_at(alloc, &*boxed, terms, longest, pages.as_slice()) {
        Ok(made) => {
            let _ = std::mem::replace(&mut *boxed, Recovery::Over);
            put_mount(mount, boxed);
            put_kept(die, made);
            OK
        }
        Err(None) => {
            put_mount(mount, boxed);
            *why = three(0, 0, 0);
            WRONG_STEP
        }
        Err(Some(refusal)) => {
            put_mount(mount, boxed);
            *why = unresumed_why(refusal);
            of_unresumed(refusal)
        }
    }
}

/// The die that begins where a mount has ended; none where it hasn't.
fn begun_at(
    alloc: Global,
    held: &Recovery,
    terms: Terms,
    longest: u32,
    names: &[PageData],
) -> Result<Box<KeptDie>, Option<OngoingResumeRefusal>>
    ensures made { IfOk result (λ made. BeginsKept held.now terms longest names.now made.value) }
    ensures refused { IfErr result (IsUnbegun held.now terms longest) }
{
    match held {
        Recovery::Calls { mount } => {
            if mount.next().is_some() {
                return Err(None);
            }
            match kept_of(alloc, mount, terms, longest, names) {
                Ok(made) => Ok(made),
                Err(refusal) => Err(Some(refusal)),
            }
        }
        _ => Err(None),
    }
}

/// The die that begins where a mount has ended.
fn kept_of(
    alloc: Global,
    mount: &Mount,
    terms: Terms,
    longest: u32,
    names: &[PageData],
) -> Result<Box<KeptDie>, OngoingResumeRefusal>
    requires ended { mount.now.stage ≡ stage.Done }
    ensures made { IfOk result (λ made. KeepsAt mount.now terms longest names.now made.value) }
    ensures refused { IfErr result (λ refusal. refusal ≢ out_of_memory
        → NoneKeeps mount.now terms longest refusal) }
    ensures stocked { IfErr result (λ refusal.
        (shortage : Shortage) → refusal ≢ refuses.Plan (plans.NotStocked shortage)) }
{
    let end = match mount.finish(alloc) {
        Ok(end) => end,
        Err(_) => return Err(no_memory()),
    };
    let plan = match copy_of(alloc, mount.plan()) {
        Ok(plan) => plan,
        Err(_) => return Err(no_memory()),
    };
    boxed(
        alloc,
        KeptDie::mounted(alloc, plan, terms, longest, &end, names),
    )
}

/// The checkpoint from which the die was resumed is void.
#[unsafe(no_mangle)]
pub extern "C" fn flash_planned_checkpoint_void(alloc: Global, die: &mut PlannedHandle)
    ghost held: { KeptDie }
    requires full { die.old.value ≡ Some held }
    ensures void { die.new.value ≡ Some (record held {
      plan = record held.plan { part = record held.plan.part { stands = false } };
    }) }
{
    let mut boxed = take_kept(alloc, die);
    boxed.plan.checkpoint_void();
    put_kept(die, boxed);
}

/// What the label of the die's next program bears.
#[unsafe(no_mangle)]
pub extern "C" fn flash_planned_serial(alloc: Global, die: &mut PlannedHandle) -> u64
    ghost held: { KeptDie }
    requires full { die.old.value ≡ Some held }
    ensures same { die.new.value ≡ Some held }
    ensures serial { result ≡ held.plan.part.serial }
{
    let boxed = take_kept(alloc, die);
    let serial = boxed.plan.part().serial;
    put_kept(die, boxed);
    serial
}

/// The number that the part gives a block of the die.
#[unsafe(no_mangle)]
pub extern "C" fn flash_planned_part_block(
    alloc: Global,
    die: &mut PlannedHandle,
    block: u32,
) -> u32
    ghost held: { KeptDie }
    requires full { die.old.value ≡ Some held }
    ensures same { die.new.value ≡ Some held }
    ensures block { (parts : OngoingParts MirrorNand) → AreParts held.plan parts
        → result ≡ on_part parts.die.core.start.plan.shape.blocks held.plan.part.aside block }
{
    let boxed = take_kept(alloc, die);
    let number = boxed.plan.part_block(block);
    put_kept(die, boxed);
    number
}
