//! What becomes of a store that is closed.

ghost use Rattle.std.specs.Prelude.{◌≡◌, map};

use crate::dies::play_only;
use crate::made::one_die;
use crate::steps::Step;
use die_service::{DiePass, StillOpen, Store, close};
use flash_die::Nand;
use slot_core::DieCore;
use slot_types::Refusal;
use std::alloc::Global;
use std::env::Env;
use std::process::Abort;
use std::sync::Wait;
use test_memory::is_scarce;

/// What becomes of a store that is to be closed.
#[derive(PartialEq, Debug, Drop)]
pub(crate) enum End {
    /// It is closed. It has `dies` dies, the first one has `entries` entries, and its present slot is `slot`.
    Closed {
        dies: usize,
        entries: u64,
        slot: u32,
    },
    /// It stays open: why, how many dies and passes are handed back, and the number of the first pass.
    Kept {
        refusal: Refusal,
        dies: u32,
        passes: usize,
        first: u32,
    },
}

// What is reported of a closed store.
fn closed<N: Nand>(dies: &[DieCore<N>]) -> Option<End> {
    let first = dies.first()?;
    Some(End::Closed {
        dies: dies.len(),
        entries: first.len(),
        slot: first.now(),
    })
}

// What is reported of a store that stays open.
fn kept<N: Nand>(kept: &StillOpen<N>) -> Option<End> {
    let first = kept.passes.first()?;
    Some(End::Kept {
        refusal: kept.refusal,
        dies: kept.store.dies(),
        passes: kept.passes.len(),
        first: first.number(),
    })
}

// Closes a store, a second time where memory is scarce and refused at the first.
fn close_store<N: Nand, R: Wait + Env>(
    rt: &R,
    store: Store<N>,
    passes: Vec<DiePass<N>>,
) -> Option<End>
    requires { map (λ pass. pass.lock) passes.items ≡ store }
{
    match close(rt, store, passes) {
        Ok(dies) => closed(dies.as_slice()),
        Err(still) => {
            if still.refusal == Refusal::NoMemory && is_scarce(rt) {
                close_again(rt, still)
            } else {
                kept(&still)
            }
        }
    }
}

// Closes a store that stayed open.
fn close_again<N: Nand, R: Wait>(rt: &R, still: StillOpen<N>) -> Option<End>
    requires { map (λ pass. pass.lock) still.passes.items ≡ still.store }
{
    match close(rt, still.store, still.passes) {
        Ok(dies) => closed(dies.as_slice()),
        Err(still) => kept(&still),
    }
}

// Plays a table on a new store of one die.
fn play_once<R: Wait + Abort + Env>(
    rt: &R,
    alloc: Global,
    steps: &[Step],
) -> Result<Option<End>, Refusal> {
    let (store, mut passes) = one_die(alloc)?;
    let played = play_only(rt, alloc, &store, passes.as_mut_slice(), steps);
    let end = close_store(rt, store, passes);
    played?;
    Ok(end)
}

/// Plays a table on a new store of one die, and tells what becomes of the store that is closed then. Where memory is
/// scarce and refused for the store, another one is made.
pub(crate) fn play_one<R: Wait + Abort + Env>(
    rt: &R,
    alloc: Global,
    steps: &[Step],
) -> Result<Option<End>, Refusal> {
    match play_once(rt, alloc, steps) {
        Err(Refusal::NoMemory) if is_scarce(rt) => play_once(rt, alloc, steps),
        answer => answer,
    }
}
