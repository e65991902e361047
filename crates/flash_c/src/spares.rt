//! What C does with a table of spare blocks.

ghost use Rattle.std.specs.Prelude.{◌≡◌, ◌≢◌, ◌⊎◌, ◌<◌, [], length, None, Some, IsSome, IfSome, IfOk, map};
ghost use Rattle.slot_types.specs.Refusal.{FailsForMemory};
ghost use Rattle.spare_blocks.specs.Tables.{on_part, use_of};
ghost use Rattle.stepped_spares.specs.Beginning.{IsBegun};
ghost use Rattle.flash_c.specs.declared.spare_tables.Spares.{Spares as Held};
ghost use Rattle.flash_c.specs.Spares.{HasToldBlock, IfTable, IsFailedErase, IsFailedProgram, IsMovedAs, MayFail, left_of, mark_in, move_of, shape_beside, stop_code, use_code, use_number};

use crate::codes::{NO_BLOCK, NO_MEMORY, OK, WRONG_STEP, of_refusal};
use crate::shapes::{FlashLabel, FlashMove, FlashPlan};
use crate::spare_handles::{SpareHandle, put_spares, take_spares};
use crate::spare_tables::{Spares, erase_failed, moved, program_failed, told};
use slot_types::{MAX_BLOCKS, Place, Refusal, Shape};
use spare_blocks::{BlockUse, Mark};
use std::alloc::Global;
use stepped_spares::{LabelScan, SpareTable};

/// The page of a label that isn't there.
const NO_LABEL: u32 = u32::MAX;

fn mark_in(label: &FlashLabel) -> Option<Mark>
    ensures { result ≡ mark_in label.now }
{
    if label.page == NO_LABEL {
        None
    } else {
        Some(Mark {
            page: label.page,
            serial: label.serial,
        })
    }
}

fn marks_in(alloc: Global, labels: &[FlashLabel]) -> Result<Vec<Option<Mark>>, Refusal>
    ensures marks { IfOk result (λ made. made.items ≡ map mark_in labels.now) }
    ensures refused { FailsForMemory result }
{
    let mut made = Vec::new(alloc);
    for label in labels {
        made.push(mark_in(label))?;
    }
    Ok(made)
}

/// The shape of the blocks that get numbers: the plan's, and the one that stands aside.
fn shape_beside(plan: &FlashPlan) -> Option<Shape>
    ensures { IfSome result (λ shape. shape ≡ shape_beside plan.now) }
{
    if plan.blocks >= MAX_BLOCKS {
        return None;
    }
    Some(Shape {
        blocks: plan.blocks + 1,
        pages: plan.pages,
        erase_slots: plan.erase_slots,
    })
}

/// Makes a table in an empty handle, for a part on which nothing was done yet.
#[unsafe(no_mangle)]
pub extern "C" fn flash_spares_new(
    alloc: Global,
    spares: &mut SpareHandle,
    plan: &FlashPlan,
    blocks: u32,
    bad: &[u32],
) -> u32
    requires empty { spares.old.value ≡ None }
    ensures made { result ≡ 0 → IfSome spares.new.value (IfTable (IsBegun (shape_beside plan.now) blocks bad.now)) }
    ensures full { result ≡ 0 → IsSome spares.new.value }
    ensures refused { result ≢ 0 → spares.new.value ≡ None }
{
    let Some(shape) = shape_beside(plan) else {
        return of_refusal(Refusal::BadShape);
    };
    let table = match SpareTable::new(alloc, shape, blocks, bad) {
        Ok(table) => table,
        Err(refusal) => return of_refusal(refusal),
    };
    match Box::new(alloc, Spares::Table(table)) {
        Ok(boxed) => {
            put_spares(spares, boxed);
            OK
        }
        Err(_) => NO_MEMORY,
    }
}

/// Makes a table in an empty handle, for a part whose power has come: its blocks are reported next.
#[unsafe(no_mangle)]
pub extern "C" fn flash_spares_power_up(
    alloc: Global,
    spares: &mut SpareHandle,
    plan: &FlashPlan,
    blocks: u32,
    bad: &[u32],
) -> u32
    requires empty { spares.old.value ≡ None }
    ensures made { result ≡ 0 → spares.new.value
        ≡ Some (Held.Scan (record { shape = shape_beside plan.now; blocks = blocks; bad = bad.now; all = [] })) }
    ensures refused { result ≢ 0 → spares.new.value ≡ None }
{
    let Some(shape) = shape_beside(plan) else {
        return of_refusal(Refusal::BadShape);
    };
    if blocks < shape.blocks {
        return of_refusal(Refusal::BadShape);
    }
    let scan = match LabelScan::new(alloc, shape, blocks, bad) {
        Ok(scan) => scan,
        Err(refusal) => return of_refusal(refusal),
    };
    match Box::new(alloc, Spares::Scan(scan)) {
        Ok(boxed) => {
            put_spares(spares, boxed);
            OK
        }
        Err(_) => NO_MEMORY,
    }
}

/// Frees a table, and leaves its handle empty.
#[unsafe(no_mangle)]
pub extern "C" fn flash_spares_free(alloc: Global, spares: &mut SpareHandle)
    requires full { IsSome spares.old.value }
    ensures empty { spares.new.value ≡ None }
{
    let _ = take_spares(alloc, spares);
}

/// Writes what the table needs next.
#[unsafe(no_mangle)]
pub extern "C" fn flash_spares_next(
    alloc: Global,
    spares: &mut SpareHandle,
    next: &mut FlashMove,
) -> u32
    ghost held: { Held }
    requires full { spares.old.value ≡ Some held }
    ensures same { spares.new.value ≡ Some held }
    ensures stop { result ≡ stop_code held }
    ensures next { result ≡ 0 → next.new ≡ move_of held }
    ensures refused { result ≢ 0 → next.new ≡ next.old }
{
    let boxed = take_spares(alloc, spares);
    let stop = boxed.stop();
    let step = boxed.next_move();
    put_spares(spares, boxed);
    if stop == OK {
        *next = step;
    }
    stop
}

/// Tells the labels of the next block. Where that was the last one, the table takes its memory.
#[unsafe(no_mangle)]
pub extern "C" fn flash_spares_tell(
    alloc: Global,
    spares: &mut SpareHandle,
    labels: &[FlashLabel],
) -> u32
    ghost held: { Held }
    requires full { spares.old.value ≡ Some held }
    ensures full { IsSome spares.new.value }
    ensures told { result ≡ 0 → IfSome spares.new.value (HasToldBlock (map mark_in labels.now) held) }
    ensures refused { result ≢ 0 → (spares.new.value ≡ Some held) ⊎ (spares.new.value ≡ Some Held.Over) }
{
    let marks = match marks_in(alloc, labels) {
        Ok(marks) => marks,
        Err(_) => return NO_MEMORY,
    };
    let mut boxed = take_spares(alloc, spares);
    let before = std::mem::replace(&mut *boxed, Spares::Over);
    let (after, code) = told(alloc, before, marks.as_slice());
    let _ = std::mem::replace(&mut *boxed, after);
    put_spares(spares, boxed);
    code
}

/// The call that the table needs next was carried out: 0 done, 1 its block failed, 2 the part had a fault.
#[unsafe(no_mangle)]
pub extern "C" fn flash_spares_done(alloc: Global, spares: &mut SpareHandle, how: u32) -> u32
    ghost held: { Held }
    requires full { spares.old.value ≡ Some held }
    ensures full { IsSome spares.new.value }
    ensures moved { result ≡ 0 → IfSome spares.new.value (IsMovedAs how held) }
    ensures refused { result ≢ 0 → spares.new.value ≡ Some held }
{
    let mut boxed = take_spares(alloc, spares);
    let before = std::mem::replace(&mut *boxed, Spares::Over);
    let (after, code) = moved(before, how);
    let _ = std::mem::replace(&mut *boxed, after);
    put_spares(spares, boxed);
    code
}

/// A program failed, in the block of this number.
#[unsafe(no_mangle)]
pub extern "C" fn flash_spares_program_failed(
    alloc: Global,
    spares: &mut SpareHandle,
    number: u32,
    page: u32,
) -> u32
    ghost held: { Held }
    requires full { spares.old.value ≡ Some held }
    ensures full { IsSome spares.new.value }
    ensures failed { MayFail number page held
        → IfSome spares.new.value (λ after. IsFailedProgram number page held after result) }
    ensures refused { ¬ (MayFail number page held) → (spares.new.value ≡ Some held) × (result ≢ 0) }
{
    let mut boxed = take_spares(alloc, spares);
    let before = std::mem::replace(&mut *boxed, Spares::Over);
    let place = Place {
        block: number,
        page,
    };
    let (after, code) = program_failed(before, place);
    let _ = std::mem::replace(&mut *boxed, after);
    put_spares(spares, boxed);
    code
}

/// The last slot of an erase failed, of the block of this number.
#[unsafe(no_mangle)]
pub extern "C" fn flash_spares_erase_failed(
    alloc: Global,
    spares: &mut SpareHandle,
    number: u32,
) -> u32
    ghost held: { Held }
    requires full { spares.old.value ≡ Some held }
    ensures full { IsSome spares.new.value }
    ensures failed { MayFail number 0 held → IfSome spares.new.value (λ after. IsFailedErase number held after result) }
    ensures refused { ¬ (MayFail number 0 held) → (spares.new.value ≡ Some held) × (result ≢ 0) }
{
    let mut boxed = take_spares(alloc, spares);
    let before = std::mem::replace(&mut *boxed, Spares::Over);
    let (after, code) = erase_failed(before, number);
    let _ = std::mem::replace(&mut *boxed, after);
    put_spares(spares, boxed);
    code
}

/// The number that the part gives the block of this number.
#[unsafe(no_mangle)]
pub extern "C" fn flash_spares_block(
    alloc: Global,
    spares: &mut SpareHandle,
    number: u32,
    block: &mut u32,
) -> u32
    ghost held: { Held }
    requires full { spares.old.value ≡ Some held }
    ensures same { spares.new.value ≡ Some held }
    ensures block { result ≡ 0
        → IfTable (λ s. (number < length s.table.blocks) × (block.new ≡ on_part s.table number)) held }
    ensures refused { result ≢ 0 → (block.new ≡ block.old) × ¬ (IfTable (λ s. number < length s.table.blocks) held) }
{
    let boxed = take_spares(alloc, spares);
    let (found, code) = match &*boxed {
        Spares::Table(table) => (table.on_part(number), NO_BLOCK),
        _ => (None, WRONG_STEP),
    };
    put_spares(spares, boxed);
    match found {
        Some(found) => {
            *block = found;
            OK
        }
        None => code,
    }
}

fn use_code(becomes: BlockUse) -> u32
    ensures { result ≡ use_code becomes }
{
    match becomes {
        BlockUse::Bad => 0,
        BlockUse::Spare => 1,
        BlockUse::InPlan(_) => 2,
    }
}

fn use_number(becomes: BlockUse) -> u32
    ensures { result ≡ use_number becomes }
{
    match becomes {
        BlockUse::InPlan(number) => number,
        _ => 0,
    }
}

/// What a block of the part is for, and its number where it has one.
#[unsafe(no_mangle)]
pub extern "C" fn flash_spares_use(
    alloc: Global,
    spares: &mut SpareHandle,
    block: u32,
    becomes: &mut u32,
    number: &mut u32,
) -> u32
    ghost held: { Held }
    requires full { spares.old.value ≡ Some held }
    ensures same { spares.new.value ≡ Some held }
    ensures becomes { result ≡ 0 → IfTable (λ s. becomes.new ≡ use_code (use_of s.table block)) held }
    ensures number { result ≡ 0 → IfTable (λ s. number.new ≡ use_number (use_of s.table block)) held }
    ensures refused { result ≢ 0 → (result ≡ 112) × (becomes.new ≡ becomes.old) × (number.new ≡ number.old) }
{
    let boxed = take_spares(alloc, spares);
    let found = match &*boxed {
        Spares::Table(table) => Some(table.use_of(block)),
        _ => None,
    };
    put_spares(spares, boxed);
    match found {
        Some(found) => {
            *becomes = use_code(found);
            *number = use_number(found);
            OK
        }
        None => WRONG_STEP,
    }
}

/// How many spare blocks are left; 0 where there is no table yet.
#[unsafe(no_mangle)]
pub extern "C" fn flash_spares_left(alloc: Global, spares: &mut SpareHandle) -> u32
    ghost held: { Held }
    requires full { spares.old.value ≡ Some held }
    ensures same { spares.new.value ≡ Some held }
    ensures left { result ≡ left_of held }
{
    let boxed = take_spares(alloc, spares);
    let left = match &*boxed {
        Spares::Table(table) => table.spares(),
        _ => 0,
    };
    put_spares(spares, boxed);
    left
}
