//! A die is written down at a quiet moment, and goes on from there.

ghost use Rattle.std.specs.Prelude.{◌≡◌, ◌≢◌, false, None, Some, IsSome, IfSome, IfOk, map};
ghost use Rattle.slot_types.specs.Refusal.{FailsForMemory};
ghost use Rattle.die_log.specs.Model.Flash.{contents};
ghost use Rattle.die_log.specs.Model.Opening.{renewed_start};
ghost use Rattle.slot_core.specs.Renewals.{MayBeRenewed};
ghost use Rattle.slot_core.specs.Resumptions.{checkpoint_of};
ghost use Rattle.stepped_die.specs.Stepped.{Stepped};
ghost use Rattle.stepped_die.specs.Names.{GoesOn};
ghost use Rattle.flash_c.specs.Lists.{array_with};
ghost use Rattle.flash_c.specs.Names.{name_of, page_in};
ghost use Rattle.flash_c.specs.Plans.{plan_in, IsTimed};
ghost use Rattle.flash_c.specs.Checkpoints.{place_of, place_in, counts_of, counts_in, checkpoint_in, part_of, part_in, SaysCheckpoint, SaysUntaken, SaysFault};
ghost use Rattle.flash_c.specs.Codes.{two};
ghost use Rattle.flash_c.specs.Conversions.{number_in};

use crate::codes::{
    BAD_PLAN, NO_MEMORY, OK, fault_why, no_numbers, of_fault, of_untaken, untaken_why,
};
use crate::handles::{Handle, put, take};
use crate::lists::put_names;
use crate::names::page_in;
use crate::plans::plan_in;
use crate::shapes::{FlashBlock, FlashName, FlashPart, FlashPlace, FlashPlan, FlashTask, FlashWhy};
use crate::times::is_timed;
use die_checkpoint::{BlockCounts, Checkpoint};
use slot_types::{Items, PageData, Place, Refusal};
use std::alloc::Global;
use stepped_die::{Part, SteppedDie};

/// The block of a page that lies nowhere.
const NOWHERE: u32 = u32::MAX;

pub(crate) fn place_of(place: Option<Place>) -> FlashPlace
    ensures { result ≡ place_of place }
{
    match place {
        None => FlashPlace {
            block: NOWHERE,
            page: NOWHERE,
        },
        Some(place) => FlashPlace {
            block: place.block,
            page: place.page,
        },
    }
}

fn place_in(place: &FlashPlace) -> Option<Place>
    ensures { result ≡ place_in place.now }
{
    if place.block == NOWHERE {
        None
    } else {
        Some(Place {
            block: place.block,
            page: place.page,
        })
    }
}

fn counts_of(counts: BlockCounts) -> FlashBlock
    ensures { result ≡ counts_of counts }
{
    FlashBlock {
        filled: counts.filled,
        erases: counts.erases,
    }
}

fn counts_in(block: &FlashBlock) -> BlockCounts
    ensures { result ≡ counts_in block.now }
{
    BlockCounts {
        filled: block.filled,
        erases: block.erases,
    }
}

pub(crate) fn put_places(room: &mut [FlashPlace], places: &[Option<Place>])
    ensures { room.new ≡ array_with place_of room.old places.now }
{
    for i in 0..room.len().min(places.len()) {
        room[i] = place_of(places[i]);
    }
}

pub(crate) fn put_blocks(room: &mut [FlashBlock], blocks: &[BlockCounts])
    ensures { room.new ≡ array_with counts_of room.old blocks.now }
{
    for i in 0..room.len().min(blocks.len()) {
        room[i] = counts_of(blocks[i]);
    }
}

pub(crate) fn put_numbers(room: &mut [u32], numbers: &[u32])
    ensures { room.new ≡ array_with number_in room.old numbers.now }
{
    for i in 0..room.len().min(numbers.len()) {
        room[i] = numbers[i];
    }
}

fn places_in(alloc: Global, places: &[FlashPlace]) -> Result<Items<Option<Place>>, Refusal>
    ensures places { IfOk result (λ made. made ≡ map place_in places.now) }
    ensures refused { FailsForMemory result }
{
    let mut made = Items::new(alloc);
    for place in places {
        made.push(place_in(place))?;
    }
    Ok(made)
}

fn blocks_in(alloc: Global, blocks: &[FlashBlock]) -> Result<Items<BlockCounts>, Refusal>
    ensures blocks { IfOk result (λ made. made ≡ map counts_in blocks.now) }
    ensures refused { FailsForMemory result }
{
    let mut made = Items::new(alloc);
    for block in blocks {
        made.push(counts_in(block))?;
    }
    Ok(made)
}

pub(crate) fn pages_in(alloc: Global, names: &[FlashName]) -> Result<Items<PageData>, Refusal>
    ensures pages { IfOk result (λ made. made ≡ map page_in names.now) }
    ensures refused { FailsForMemory result }
{
    let mut made = Items::new(alloc);
    for name in names {
        made.push(page_in(name))?;
    }
    Ok(made)
}

/// The checkpoint that these arrays stand for.
pub(crate) fn checkpoint_in(
    alloc: Global,
    places: &[FlashPlace],
    blocks: &[FlashBlock],
    balances: &[u32],
    spare: u32,
) -> Result<Checkpoint, Refusal>
    ensures checkpoint { IfOk result (λ made.
        made ≡ checkpoint_in places.now blocks.now balances.now spare) }
    ensures refused { FailsForMemory result }
{
    Ok(Checkpoint {
        places: places_in(alloc, places)?,
        blocks: blocks_in(alloc, blocks)?,
        spare,
        balances: Items::from_vec(Vec::from_slice(alloc, balances)?),
    })
}

pub(crate) fn part_of(part: Part) -> FlashPart
    ensures { result ≡ part_of part }
{
    FlashPart {
        serial: part.serial,
        aside: part.aside,
    }
}

pub(crate) fn part_in(part: &FlashPart) -> Part
    ensures { result ≡ part_in part.now }
{
    Part {
        aside: part.aside,
        serial: part.serial,
        stands: true,
    }
}

/// What stands on a die at a quiet moment, into the arrays as far as there is room: by logical page its cell and its name,
/// by block its counts, by task its balance; and what is known of the part.
#[unsafe(no_mangle)]
pub extern "C" fn flash_checkpoint(
    alloc: Global,
    die: &mut Handle,
    places: &mut [FlashPlace],
    names: &mut [FlashName],
    blocks: &mut [FlashBlock],
    balances: &mut [u32],
    spare: &mut u32,
    part: &mut FlashPart,
    why: &mut FlashWhy,
) -> u32
    ghost held: { Stepped }
    requires full { die.old.value ≡ Some held }
    ensures same { die.new.value ≡ Some held }
    ensures may { result ≡ 0 → MayBeRenewed held.core }
    ensures said { result ≡ 0
        → SaysCheckpoint (checkpoint_of (renewed_start held.core.start held.core.log)) places.old
        places.new
        blocks.old blocks.new balances.old balances.new spare.new }
    ensures names { result ≡ 0 → names.new
        ≡ array_with name_of names.old (contents held.core.start held.core.log) }
    ensures part { result ≡ 0 → part.new ≡ part_of held.part }
    ensures well { result ≡ 0 → why.new ≡ why.old }
    ensures cause { result ≢ 0 → SaysUntaken held result why.new }
    ensures silent { result ≢ 0 → (places.new ≡ places.old) × (names.new ≡ names.old)
        × (blocks.new ≡ blocks.old)
        × (balances.new ≡ balances.old) × (spare.new ≡ spare.old) × (part.new ≡ part.old) }
{
    let mut boxed = take(alloc, die);
    let taken = boxed.checkpoint(alloc);
    put(die, boxed);
    match taken {
        Err(refusal) => {
            *why = untaken_why(refusal);
            of_untaken(refusal)
        }
        Ok(taken) => {
            put_names(names, taken.names.as_slice());
            put_places(places, taken.checkpoint.places.as_slice());
            put_blocks(blocks, taken.checkpoint.blocks.as_slice());
            put_numbers(balances, taken.checkpoint.balances.as_slice());
            *spare = taken.checkpoint.spare;
            *part = part_of(taken.part);
            OK
        }
    }
}

/// Makes a die in an empty handle that goes on from a checkpoint, which stands until it is said void.
#[unsafe(no_mangle)]
pub extern "C" fn flash_resume(
    alloc: Global,
    die: &mut Handle,
    plan: &FlashPlan,
    tasks: &[FlashTask],
    places: &[FlashPlace],
    names: &[FlashName],
    blocks: &[FlashBlock],
    balances: &[u32],
    spare: u32,
    part: &FlashPart,
    why: &mut FlashWhy,
) -> u32
    requires empty { die.old.value ≡ None }
    ensures made { result ≡ 0 → IsSome die.new.value }
    ensures goes_on { result ≡ 0 → IfSome die.new.value (GoesOn (plan_in plan.now tasks.now)
        (checkpoint_in places.now blocks.now balances.now spare) (map page_in names.now)) }
    ensures part { result ≡ 0 → IfSome die.new.value (λ made. made.part ≡ part_in part.now) }
    ensures refused { result ≢ 0 → die.new.value ≡ None }
    ensures timed { result ≡ 0 → IsTimed (plan_in plan.now tasks.now) }
    ensures cause { IsTimed (plan_in plan.now tasks.now) → result ≢ 0 → result ≢ 1
        → SaysFault (plan_in plan.now tasks.now)
        (checkpoint_in places.now blocks.now balances.now spare) result why.new }
    ensures untimed { ¬ IsTimed (plan_in plan.now tasks.now) → result ≢ 1
        → (result ≡ 3) × (why.new ≡ two 0 0) }
    ensures memory { result ≡ 1 → why.new ≡ two 0 0 }
    ensures well { result ≡ 0 → why.new ≡ why.old }
{
    let plan = match plan_in(alloc, plan, tasks) {
        Ok(plan) => plan,
        Err(_) => {
            *why = no_numbers();
            return NO_MEMORY;
        }
    };
    let checkpoint = match checkpoint_in(alloc, places, blocks, balances, spare) {
        Ok(checkpoint) => checkpoint,
        Err(_) => {
            *why = no_numbers();
            return NO_MEMORY;
        }
    };
    let pages = match pages_in(alloc, names) {
        Ok(pages) => pages,
        Err(_) => {
            *why = no_numbers();
            return NO_MEMORY;
        }
    };
    if !is_timed(&plan) {
        *why = no_numbers();
        return BAD_PLAN;
    }
    let made = match SteppedDie::resume(alloc, plan, &checkpoint, pages.as_slice(), part_in(part)) {
        Ok(made) => made,
        Err(fault) => {
            *why = fault_why(fault);
            return of_fault(fault);
        }
    };
    match Box::new(alloc, made) {
        Ok(boxed) => {
            put(die, boxed);
            OK
        }
        Err(_) => {
            *why = no_numbers();
            NO_MEMORY
        }
    }
}

/// The checkpoint from which the die was resumed is void.
#[unsafe(no_mangle)]
pub extern "C" fn flash_checkpoint_void(alloc: Global, die: &mut Handle)
    ghost held: { Stepped }
    requires full { die.old.value ≡ Some held }
    ensures void { die.new.value
        ≡ Some (record held { part = record held.part { stands = false } }) }
{
    let mut boxed = take(alloc, die);
    boxed.checkpoint_void();
    put(die, boxed);
}
