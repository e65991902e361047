//! What a store does where memory is refused. Run both tests with each allocation made to fail in turn.

ghost use Rattle.std.specs.Prelude.{◌≡◌, ◌≤◌, map};

use crate::again::{carry_once, submit_once};
use crate::closing::{End, play_one};
use crate::courses::{WRITE_AND_READ, run};
use crate::dies::play_both;
use crate::feeds::both;
use crate::made::two_dies;
use crate::steps::{Fact, Step};
use die_service::{Die, DieEnd, DieEnds, DiePass, FreeGate, Store};
use flash_die::Nand;
use slot_types::{Op, Refusal};
use std::alloc::Global;
use std::env::Env;
use std::process::Abort;
use std::sync::Wait;
use std::thread::Threads;
use test_memory::is_scarce;

// How many entries a call made: none where memory is scarce and was refused. Nothing, if it was refused otherwise.
fn made_entries(refusal: Option<Refusal>, scarce: bool) -> Option<u64> {
    match refusal {
        None => Some(1),
        Some(Refusal::NoMemory) if scarce => Some(0),
        Some(_) => None,
    }
}

// Submits a read and carries out a slot, and answers how many entries both made.
fn read_and_slot<N: Nand, R: Wait + Env>(
    rt: &R,
    alloc: Global,
    die: &Die<N>,
    pass: &mut DiePass<N>,
) -> Option<u64>
    requires { pass.old.lock ≡ die.now }
    ensures { pass.new.lock ≡ pass.old.lock }
{
    let read = submit_once(rt, alloc, die, pass, 99, 199, Op::Read(0)).err();
    let slot = match carry_once(rt, die, pass) {
        Ok(_) => None,
        Err(refused) => Some(refused.refusal),
    };
    let scarce = is_scarce(rt);
    Some(made_entries(read, scarce)?.saturating_add(made_entries(slot, scarce)?))
}

/// Submits eight reads and carries out eight slots, and says whether each made an entry, except for one that was
/// refused for lack of memory where that is scarce, and made none.
pub(crate) fn grows_or_stays<N: Nand, R: Wait + Env>(
    rt: &R,
    alloc: Global,
    die: &Die<N>,
    pass: &mut DiePass<N>,
) -> bool
    requires { pass.old.lock ≡ die.now }
    ensures { pass.new.lock ≡ pass.old.lock }
{
    let mut entries = 0u64;
    for _ in 0..8u32 {
        let Some(made) = read_and_slot(rt, alloc, die, pass) else {
            return false;
        };
        entries = entries.saturating_add(made);
        if die.look(pass) != entries {
            return false;
        }
    }
    entries == 16 || (entries == 15 && is_scarce(rt))
}

// Whether a store of one die grows or stays, and closes with that die, at the second time where memory is refused.
fn grows_and_closes<R: Wait + Abort + Env>(rt: &R, alloc: Global) -> Result<bool, Refusal> {
    match play_one(rt, alloc, &[Step::Grows])? {
        Some(End::Closed { dies, .. }) => Ok(dies == 1),
        _ => Ok(false),
    }
}

// A refused allocation is reported, and leaves the store as it was. A store that couldn't be made can be made at the
// second time.
#[test]
fn a_refused_allocation_changes_nothing(rt: HostRuntime) {
    let ended = match grows_and_closes(&rt, rt.alloc()) {
        Err(Refusal::NoMemory) if is_scarce(&rt) => grows_and_closes(&rt, rt.alloc()),
        answer => answer,
    };
    assert_eq!(rt; ended, Ok(true));
}

// How many calls a die refused out of memory in a run of two slots, which it carried out except for a refused one.
// Nothing, if it ended otherwise.
fn refusals_of(end: &DieEnd) -> Option<usize> {
    let refused = end.refused.as_slice();
    let for_memory = refused
        .iter()
        .all(|e| e.refused.refusal == Refusal::NoMemory);
    match end.stop {
        None if for_memory && end.slots == 2 => Some(refused.len()),
        Some(at) if for_memory && at.refusal == Refusal::NoMemory => {
            Some(refused.len().saturating_add(1))
        }
        _ => None,
    }
}

// Whether two dies did all that they were asked for, except for one call where memory is scarce.
fn are_right(ends: &[DieEnd], scarce: bool) -> bool {
    let [zero, one] = ends else {
        return false;
    };
    match (refusals_of(zero), refusals_of(one)) {
        (Some(0), Some(0)) => true,
        (Some(1), Some(0)) | (Some(0), Some(1)) => scarce,
        _ => false,
    }
}

// Runs a store by `workers` workers.
fn run_fed<N: Nand + Send, R: Threads + Wait + Sync>(
    rt: &R,
    alloc: Global,
    store: &Store<N>,
    passes: &mut Vec<DiePass<N>>,
    workers: u32,
) -> Result<DieEnds, Refusal>
    requires own { map (λ pass. pass.lock) passes.old.items ≡ store.now }
    requires workers { (1 ≤ workers) × (workers ≤ 16) }
    ensures own { map (λ pass. pass.lock) passes.new.items ≡ store.now }
{
    let feeds = both(alloc, &WRITE_AND_READ, &WRITE_AND_READ)?;
    run(rt, store, passes, feeds, 2, workers, &FreeGate)
}

const UNTOUCHED: &[Step] = &[Step::Is(Fact::Entries { count: 0 })];

// Runs a store, and says whether it ended right. Where it found no memory, and memory is scarce, it asked its dies
// nothing.
fn runs_or_asks_nothing<N: Nand + Send, R: Threads + Wait + Sync + Abort + Env>(
    rt: &R,
    alloc: Global,
    store: &Store<N>,
    passes: &mut Vec<DiePass<N>>,
    workers: u32,
) -> Result<bool, Refusal>
    requires own { map (λ pass. pass.lock) passes.old.items ≡ store.now }
    requires workers { (1 ≤ workers) × (workers ≤ 16) }
{
    let scarce = is_scarce(rt);
    match run_fed(rt, alloc, store, passes, workers) {
        Ok(ends) => Ok(are_right(ends.as_slice(), scarce)),
        Err(Refusal::NoMemory) if scarce => {
            let both = passes.as_mut_slice();
            play_both(rt, alloc, store, both, UNTOUCHED, UNTOUCHED)?;
            Err(Refusal::NoMemory)
        }
        Err(refusal) => Err(refusal),
    }
}

// Makes two dies, and runs them so.
fn run_scarce<R: Threads + Wait + Sync + Abort + Env>(
    rt: &R,
    alloc: Global,
    workers: u32,
) -> Result<bool, Refusal>
    requires { (1 ≤ workers) × (workers ≤ 16) }
{
    let (store, mut passes) = two_dies(alloc)?;
    runs_or_asks_nothing(rt, alloc, &store, &mut passes, workers)
}

// Runs two dies, others where memory is scarce and is refused for these.
fn runs_right<R: Threads + Wait + Sync + Abort + Env>(
    rt: &R,
    alloc: Global,
    workers: u32,
) -> Result<bool, Refusal>
    requires { (1 ≤ workers) × (workers ≤ 16) }
{
    match run_scarce(rt, alloc, workers) {
        Err(Refusal::NoMemory) if is_scarce(rt) => run_scarce(rt, alloc, workers),
        answer => answer,
    }
}

#[test]
fn a_run_that_finds_no_memory_starts_no_worker(rt: HostRuntime) {
    for workers in [1, 2] {
        assert_eq!(rt;
            runs_right(&rt, rt.alloc(), workers),
            Ok(true),
            "{workers} workers"
        );
    }
}
