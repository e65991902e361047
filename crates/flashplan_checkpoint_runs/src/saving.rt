//! What is saved of the dies of a run.

ghost use Rattle.std.specs.Prelude.{◌≡◌, ◌≤◌, IfErr, IfOk, length, map};
ghost use Rattle.slot_types.specs.Refusal.{FailsForMemory};
ghost use Rattle.checkpoint_texts.specs.SavedDies.{checkpoint_of};
ghost use Rattle.die_checkpoint.specs.Fits.{Fits};
ghost use Rattle.die_log.specs.Model.Opening.{renewed_start};
ghost use Rattle.slot_core.specs.Resumptions.{RefusesCheckpoint};
ghost use Rattle.flashplan_checkpoint_runs.specs.SavedDies.{saved_by, saved_end, saved_page, saved_start};

use crate::dies::StoreDies;
use crate::faults::Unsaved;
use checkpoint_texts::{SavedDie, SavedPage, SavedStore};
use die_checkpoint::Checkpoint;
use flash_die::MemoryNand;
use slot_core::{CheckpointRefusal, DieCore};
use slot_types::{Items, PageData, Place, Refusal};
use std::alloc::Global;

/// What a cell holds in which a page lies.
fn bytes_at(device: &MemoryNand, place: Option<Place>) -> Option<PageData>
    ensures { result ≡ (saved_page device.now.blocks place).bytes }
{
    match place {
        Some(place) => Some(device.cell(place)),
        None => None,
    }
}

/// Pages as they are saved. The only refusal is NoMemory.
fn pages_of(
    alloc: Global,
    device: &MemoryNand,
    places: &[Option<Place>],
) -> Result<Items<SavedPage>, Refusal>
    ensures ok { IfOk result (λ pages. pages ≡ map (saved_page device.now.blocks) places.now) }
    ensures refused { FailsForMemory result }
{
    let mut pages = Items::new(alloc);
    for place in places {
        let bytes = bytes_at(device, *place);
        pages.push(SavedPage {
            place: *place,
            bytes,
        })?;
    }
    Ok(pages)
}

/// What is saved by a checkpoint and the device. The only refusal is NoMemory.
fn saved_of(alloc: Global, device: &MemoryNand, taken: Checkpoint) -> Result<SavedDie, Refusal>
    ensures ok { IfOk result (λ saved. saved ≡ saved_by taken device.now.blocks) }
    ensures refused { FailsForMemory result }
{
    let pages = pages_of(alloc, device, taken.places.as_slice())?;
    Ok(SavedDie {
        pages,
        blocks: taken.blocks,
        balances: taken.balances,
        spare: taken.spare,
    })
}

/// What is saved of a die: its checkpoint, and the bytes of its placed pages. A die that is made of it starts where this one,
/// renewed, would. Refused as [`DieCore::checkpoint`] is.
fn saved_in(alloc: Global, die: &mut DieCore<MemoryNand>) -> Result<SavedDie, CheckpointRefusal>
    ensures saved { IfOk result (λ saved. saved ≡ saved_end die.old) }
    ensures fits { IfOk result (λ saved. Fits die.old.start.plan (checkpoint_of saved)) }
    ensures goes_on { IfOk result (λ saved.
        saved_start die.old.start.plan saved ≡ renewed_start die.old.start die.old.log) }
    ensures refused { IfErr result (RefusesCheckpoint die.old) }
{
    let taken = die.checkpoint(alloc)?;
    match saved_of(alloc, die.device(), taken) {
        Ok(saved) => Ok(saved),
        Err(_) => Err(CheckpointRefusal::NoMemory),
    }
}

/// What is saved of a die, as [`saved_in`] says it. The die is given up, and freed in one place.
pub fn save_die(alloc: Global, mut die: DieCore<MemoryNand>) -> Result<SavedDie, CheckpointRefusal>
    ensures saved { IfOk result (λ saved. saved ≡ saved_end die) }
    ensures fits { IfOk result (λ saved. Fits die.start.plan (checkpoint_of saved)) }
    ensures goes_on { IfOk result (λ saved.
        saved_start die.start.plan saved ≡ renewed_start die.start die.log) }
    ensures refused { IfErr result (RefusesCheckpoint die) }
{
    saved_in(alloc, &mut die)
}

/// What is saved of dies, which are given up. Refused with the first die of which no checkpoint may be taken, and why; or with
/// NoMemory.
pub fn save_dies(alloc: Global, dies: StoreDies) -> Result<SavedStore, Unsaved>
    ensures saved { IfOk result (λ saved. saved ≡ map saved_end dies.items) }
{
    let mut store = SavedStore::new(alloc);
    let mut number: u32 = 0;
    for die in dies {
        let saved = match save_die(alloc, die) {
            Ok(saved) => saved,
            Err(CheckpointRefusal::NoMemory) => return Err(Unsaved::NoMemory),
            Err(CheckpointRefusal::NotRenewable { why }) => {
                return Err(Unsaved::NotRenewable { die: number, why });
            }
        };
        store.push(saved)?;
        number = number.saturating_add(1);
    }
    Ok(store)
}
