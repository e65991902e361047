//! What C does with a mount.

ghost use Rattle.std.specs.Prelude.{◌≡◌, ◌≢◌, ◌+◌, ℕ, [], List, Option, None, Some, IsSome, IfSome, IfOk, IfErr, map, replicate};
ghost use Rattle.slot_types.specs.Refusal.{FailsForMemory};
ghost use Rattle.power_loss.specs.Aside.{on_part};
ghost use Rattle.stepped_die.specs.Stepped.{Stepped};
ghost use Rattle.flash_c.specs.declared.recoveries.Recovery.{Recovery as Stage};
ghost use Rattle.flash_c.specs.declared.recoveries.Recovery.TheVariants as recovery;
ghost use Rattle.flash_c.specs.Checkpoints.{place_of};
ghost use Rattle.flash_c.specs.Codes.{two};
ghost use Rattle.flash_c.specs.Mounts.{BeginsDie, HasCalled, HasCounts, HasSeen, HasTold, IsFirstScan, calls_left_of, erases_of, erases_told, greater_of, label_in, place_at, step_at, told_after};
ghost use Rattle.flash_c.specs.Names.{page_in};
ghost use Rattle.flash_c.specs.Plans.{plan_in, IsTimed};

use crate::checkpoints::{pages_in, place_of};
use crate::codes::{
    BAD_LABEL, BAD_PLAN, NO_MEMORY, OK, TOO_MANY_CELLS, WORN_OUT, WRONG_STEP, no_numbers,
};
use crate::handles::{Handle, put, take};
use crate::mount_handles::{MountHandle, put_mount, take_mount};
use crate::plans::{copy_of, plan_in};
use crate::recoveries::{Recovery, TellFault, called, taken};
use crate::shapes::{FlashLabel, FlashName, FlashPlace, FlashPlan, FlashStep, FlashTask, FlashWhy};
use crate::times::is_timed;
use die_mount::{BeginFault, Label, Mount, MountFault, Scan, ScanFault};
use slot_types::{PageData, Refusal};
use std::alloc::Global;
use stepped_die::SteppedDie;

/// The larger of two counts, where there is one.
fn greater_of(most: Option<u32>, erases: Option<u32>) -> Option<u32>
    ensures { result ≡ greater_of most erases }
{
    match (most, erases) {
        (Some(most), Some(erases)) => Some(most.max(erases)),
        (None, erases) => erases,
        (most, None) => most,
    }
}

/// How often a block was erased whose cells show this: the greatest count of a good one.
fn erases_told(labels: &[FlashLabel]) -> Option<u32>
    ensures { result ≡ erases_told labels.now }
{
    let mut most = None;
    for k in 0..labels.len() {
        most = greater_of(most, erases_of(&labels[k]));
    }
    most
}

/// The page of a label that isn't there.
const NO_LABEL: u32 = u32::MAX;

/// How often a cell's block was erased, where it is good.
fn erases_of(label: &FlashLabel) -> Option<u32>
    ensures { result ≡ erases_of label.now }
{
    if label.page == NO_LABEL {
        None
    } else {
        Some(label.erases)
    }
}

fn label_in(label: &FlashLabel) -> Option<Label>
    ensures { result ≡ label_in label.now }
{
    if label.page == NO_LABEL {
        None
    } else {
        Some(Label {
            page: label.page,
            serial: label.serial,
        })
    }
}

fn labels_in(alloc: Global, labels: &[FlashLabel]) -> Result<Vec<Option<Label>>, Refusal>
    ensures labels { IfOk result (λ made. made.items ≡ map label_in labels.now) }
    ensures refused { FailsForMemory result }
{
    let mut made = Vec::new(alloc);
    for label in labels {
        made.push(label_in(label))?;
    }
    Ok(made)
}

/// The number of why cells can't be those of the next block.
fn of_scan(fault: ScanFault) -> u32
    ensures { result ≢ 0 }
{
    match fault {
        ScanFault::NoMoreBlocks => WRONG_STEP,
        ScanFault::TooManyCells => TOO_MANY_CELLS,
        ScanFault::BadLabel { .. } => BAD_LABEL,
    }
}

/// The cell that it names.
fn scan_why(fault: ScanFault) -> FlashWhy {
    match fault {
        ScanFault::BadLabel { cell } => FlashWhy {
            first: cell,
            second: 0,
        },
        _ => no_numbers(),
    }
}

/// The number of why a mount's calls don't begin.
fn of_begin(fault: BeginFault) -> u32
    ensures { result ≢ 0 }
{
    match fault {
        BeginFault::BadPlan => BAD_PLAN,
        BeginFault::NoIdleBlock => WRONG_STEP,
        BeginFault::WornOut { .. } => WORN_OUT,
        BeginFault::NoMemory => NO_MEMORY,
    }
}

/// The block that it names.
fn begin_why(fault: BeginFault) -> FlashWhy {
    match fault {
        BeginFault::WornOut { block } => FlashWhy {
            first: block,
            second: 0,
        },
        _ => no_numbers(),
    }
}

/// Makes a mount in an empty handle, to which nothing was reported yet.
#[unsafe(no_mangle)]
pub extern "C" fn flash_mount_new(
    alloc: Global,
    mount: &mut MountHandle,
    plan: &FlashPlan,
    tasks: &[FlashTask],
) -> u32
    requires empty { mount.old.value ≡ None }
    ensures made { result ≡ 0 → IfSome mount.new.value (λ made.
        IsFirstScan made × HasSeen (plan_in plan.now tasks.now) [] made) }
    ensures untold { result ≡ 0 → IfSome mount.new.value
        (HasCounts (replicate (plan.now.blocks + 1) None)) }
    ensures full { result ≡ 0 → IsSome mount.new.value }
    ensures timed { result ≡ 0 → IsTimed (plan_in plan.now tasks.now) }
    ensures refused { result ≢ 0 → mount.new.value ≡ None }
{
    let plan = match plan_in(alloc, plan, tasks) {
        Ok(plan) => plan,
        Err(_) => return NO_MEMORY,
    };
    if !is_timed(&plan) {
        return BAD_PLAN;
    }
    let scan = match Scan::new(alloc, &plan) {
        Ok(scan) => scan,
        Err(MountFault::BadPlan) => return BAD_PLAN,
        Err(MountFault::NoMemory) => return NO_MEMORY,
    };
    match Box::new(alloc, Recovery::Scan { plan, scan }) {
        Ok(boxed) => {
            put_mount(mount, boxed);
            OK
        }
        Err(_) => NO_MEMORY,
    }
}

/// Frees a mount, and leaves its handle empty.
#[unsafe(no_mangle)]
pub extern "C" fn flash_mount_free(alloc: Global, mount: &mut MountHandle)
    requires full { IsSome mount.old.value }
    ensures empty { mount.new.value ≡ None }
{
    let _ = take_mount(alloc, mount);
}

/// Writes what the mount needs next.
#[unsafe(no_mangle)]
pub extern "C" fn flash_mount_next(
    alloc: Global,
    mount: &mut MountHandle,
    step: &mut FlashStep,
) -> u32
    ghost held: { Stage }
    requires full { mount.old.value ≡ Some held }
    ensures same { mount.new.value ≡ Some held }
    ensures step { result ≡ 0 → step_at held ≡ Some step.new }
    ensures over { result ≢ 0 → (result ≡ 112) × (held ≡ recovery.Over) × (step.new ≡ step.old) }
{
    let boxed = take_mount(alloc, mount);
    let next = boxed.step();
    put_mount(mount, boxed);
    match next {
        Some(next) => {
            *step = next;
            OK
        }
        None => WRONG_STEP,
    }
}

/// Tells the labels of the next block, and how often it was erased, as the greatest count of them says. Where that was the
/// last one, the mount takes the memory for its calls; where there is none, or a block would be worn out, it is over.
#[unsafe(no_mangle)]
pub extern "C" fn flash_mount_tell(
    alloc: Global,
    mount: &mut MountHandle,
    labels: &[FlashLabel],
    why: &mut FlashWhy,
) -> u32
    ghost held: { Stage }
    requires full { mount.old.value ≡ Some held }
    ensures full { IsSome mount.new.value }
    ensures told { result ≡ 0 → IfSome mount.new.value (HasTold (map label_in labels.now) held) }
    ensures counts { result ≡ 0 → IfSome mount.new.value (λ after. (told : List (Option ℕ))
        → HasCounts told held → HasCounts (told_after held (erases_told labels.now) told) after) }
    ensures well { result ≡ 0 → why.new ≡ why.old }
{
    let erases = erases_told(labels);
    let labels = match labels_in(alloc, labels) {
        Ok(labels) => labels,
        Err(_) => {
            *why = no_numbers();
            return NO_MEMORY;
        }
    };
    let mut boxed = take_mount(alloc, mount);
    let before = std::mem::replace(&mut *boxed, Recovery::Over);
    let (after, said) = taken(alloc, before, labels.as_slice(), erases);
    let _ = std::mem::replace(&mut *boxed, after);
    put_mount(mount, boxed);
    match said {
        Ok(()) => OK,
        Err(TellFault::Scan(fault)) => {
            *why = scan_why(fault);
            of_scan(fault)
        }
        Err(TellFault::Begin(fault)) => {
            *why = begin_why(fault);
            of_begin(fault)
        }
    }
}

/// The call that the mount needs next was made.
#[unsafe(no_mangle)]
pub extern "C" fn flash_mount_done(alloc: Global, mount: &mut MountHandle) -> u32
    ghost held: { Stage }
    requires full { mount.old.value ≡ Some held }
    ensures full { IsSome mount.new.value }
    ensures called { result ≡ 0 → IfSome mount.new.value (HasCalled held) }
    ensures counts { IfSome mount.new.value (λ after. (told : List (Option ℕ))
        → HasCounts told held → HasCounts told after) }
    ensures refused { result ≢ 0 → (result ≡ 112) × (mount.new.value ≡ Some held) }
{
    let mut boxed = take_mount(alloc, mount);
    let before = std::mem::replace(&mut *boxed, Recovery::Over);
    let (after, well) = called(before);
    let _ = std::mem::replace(&mut *boxed, after);
    put_mount(mount, boxed);
    if well { OK } else { WRONG_STEP }
}

/// How many calls of the part may come yet; 0 before the first one.
#[unsafe(no_mangle)]
pub extern "C" fn flash_mount_calls_left(alloc: Global, mount: &mut MountHandle) -> u64
    ghost held: { Stage }
    requires full { mount.old.value ≡ Some held }
    ensures same { mount.new.value ≡ Some held }
    ensures left { result ≡ calls_left_of held }
{
    let boxed = take_mount(alloc, mount);
    let left = match &*boxed {
        Recovery::Calls { mount } => mount.calls_left(),
        _ => 0,
    };
    put_mount(mount, boxed);
    left
}

/// Writes the cell from which a page may be read now.
#[unsafe(no_mangle)]
pub extern "C" fn flash_mount_place(
    alloc: Global,
    mount: &mut MountHandle,
    page: u32,
    place: &mut FlashPlace,
) -> u32
    ghost held: { Stage }
    requires full { mount.old.value ≡ Some held }
    ensures same { mount.new.value ≡ Some held }
    ensures place { result ≡ 0 → IfSome (place_at held page) (λ at. place.new ≡ place_of at) }
    ensures known { result ≡ 0 → IsSome (place_at held page) }
    ensures refused { result ≢ 0 → (result ≡ 112) × (place_at held page ≡ None) × (place.new ≡ place.old) }
{
    let boxed = take_mount(alloc, mount);
    let at = match &*boxed {
        Recovery::Again { before, .. } => Some(before.place(page)),
        Recovery::Calls { mount } => Some(mount.place(page)),
        _ => None,
    };
    put_mount(mount, boxed);
    match at {
        Some(at) => {
            *place = place_of(at);
            OK
        }
        None => WRONG_STEP,
    }
}

/// Makes a die in an empty handle that begins where the mount has ended, and the mount is over. `names` has by logical
/// page the name of what lies there.
#[unsafe(no_mangle)]
pub extern "C" fn flash_mount_end(
    alloc: Global,
    mount: &mut MountHandle,
    names: &[FlashName],
    die: &mut Handle,
) -> u32
    ghost held: { Stage }
    requires full { mount.old.value ≡ Some held }
    requires empty { die.old.value ≡ None }
    ensures full { IsSome mount.new.value }
    ensures over { result ≡ 0 → mount.new.value ≡ Some recovery.Over }
    ensures made { result ≡ 0 → IsSome die.new.value }
    ensures begins { result ≡ 0 → IfSome die.new.value (BeginsDie held (map page_in names.now)) }
    ensures refused { result ≢ 0 → (mount.new.value ≡ Some held) × (die.new.value ≡ None) }
{
    let pages = match pages_in(alloc, names) {
        Ok(pages) => pages,
        Err(_) => return NO_MEMORY,
    };
    let mut boxed = take_mount(alloc, mount);
    let made = match &*boxed {
        Recovery::Calls { mount } => die_of(alloc, mount, pages.as_slice()),
        _ => Err(WRONG_STEP),
    };
    let code = match made {
        Ok(made) => {
            put(die, made);
            let _ = std::mem::replace(&mut *boxed, Recovery::Over);
            OK
        }
        Err(code) => code,
    };
    put_mount(mount, boxed);
    code
}

/// The die that begins where a mount has ended.
fn die_of(alloc: Global, mount: &Mount, names: &[PageData]) -> Result<Box<SteppedDie>, u32>
    ensures made { IfOk result (λ made. BeginsDie (recovery.Calls mount.now) names.now made.value) }
    ensures refused { IfErr result (λ code. code ≢ 0) }
{
    if mount.next().is_some() {
        return Err(WRONG_STEP);
    }
    let end = match mount.finish(alloc) {
        Ok(end) => end,
        Err(_) => return Err(NO_MEMORY),
    };
    let plan = match copy_of(alloc, mount.plan()) {
        Ok(plan) => plan,
        Err(_) => return Err(NO_MEMORY),
    };
    let die = match SteppedDie::mounted(alloc, plan, &end, names) {
        Ok(die) => die,
        Err(_) => return Err(NO_MEMORY),
    };
    match Box::new(alloc, die) {
        Ok(boxed) => Ok(boxed),
        Err(_) => Err(NO_MEMORY),
    }
}

/// What the label of the die's next program bears.
#[unsafe(no_mangle)]
pub extern "C" fn flash_serial(alloc: Global, die: &mut Handle) -> u64
    ghost held: { Stepped }
    requires full { die.old.value ≡ Some held }
    ensures same { die.new.value ≡ Some held }
    ensures serial { result ≡ held.part.serial }
{
    let boxed = take(alloc, die);
    let serial = boxed.part().serial;
    put(die, boxed);
    serial
}

/// The number that the part gives a block of the die.
#[unsafe(no_mangle)]
pub extern "C" fn flash_part_block(alloc: Global, die: &mut Handle, block: u32) -> u32
    ghost held: { Stepped }
    requires full { die.old.value ≡ Some held }
    ensures same { die.new.value ≡ Some held }
    ensures block { result ≡ on_part held.core.start.plan.shape.blocks held.part.aside block }
{
    let boxed = take(alloc, die);
    let number = boxed.part_block(block);
    put(die, boxed);
    number
}
