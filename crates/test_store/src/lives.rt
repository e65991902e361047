//! Stores of dies that another store was closed into.

ghost use Rattle.std.specs.Prelude.{◌≡◌, map, All};
ghost use Rattle.die_service.specs.Stores.{IsAtStart};

use crate::dies::{play_both, play_only};
use crate::made::{ONES, TWOS, faulty_dies, two_dies};
use crate::steps::Fact::{Entries, Now, Read};
use crate::steps::Step;
use crate::steps::Step::{Is, Slot, Submit};
use die_service::{DiePass, RefusedAt, Store, close, renew_each};
use flash_die::{MemoryNand, Nand};
use slot_core::{DieCore, RenewalRefusal};
use slot_types::{Op, Refusal};
use std::alloc::Global;
use std::env::Env;
use std::process::Abort;
use std::sync::Wait;
use std::test::Fail;
use test_memory::is_scarce;

#[test]
fn a_store_of_no_dies_is_not_made(rt: HostRuntime) -> Result<(), Fail> {
    let none: Vec<DieCore<MemoryNand>> = Vec::new(rt.alloc());
    let Err(kept) = Store::reopen(rt.alloc(), none) else {
        panic!(rt; "a store of no dies")
    };
    assert_eq!(rt; kept.refusal, Refusal::BadShape);
    assert_eq!(rt; kept.dies.len(), 0);
    Ok(())
}

#[rattlefmt::skip]
const WRITES_ONES: &[Step] = &[
    Submit { release: 0, due: 5, op: Op::Write(3, ONES), want: Ok(0) },
    Slot { want: Ok(Some(0)) },
];

#[rattlefmt::skip]
const WRITES_TWOS: &[Step] = &[
    Submit { release: 0, due: 5, op: Op::Write(3, TWOS), want: Ok(0) },
    Slot { want: Ok(Some(0)) },
    Slot { want: Ok(None) },
];

// Slots, entries and numbers begin anew.
#[rattlefmt::skip]
const READS_ONES: &[Step] = &[
    Is(Now { slot: 0 }),
    Is(Entries { count: 0 }),
    Submit { release: 0, due: 1, op: Op::Read(3), want: Ok(0) },
    Slot { want: Ok(Some(0)) },
    Is(Read { job: 0, page: ONES }),
];

#[rattlefmt::skip]
const READS_TWOS: &[Step] = &[
    Is(Now { slot: 0 }),
    Submit { release: 0, due: 1, op: Op::Read(3), want: Ok(0) },
    Slot { want: Ok(Some(0)) },
    Is(Read { job: 0, page: TWOS }),
];

// The dies of a store that is closed.
fn closed<N: Nand, R: Wait>(
    rt: &R,
    store: Store<N>,
    passes: Vec<DiePass<N>>,
) -> Result<Vec<DieCore<N>>, Refusal>
    requires { map (λ pass. pass.lock) passes.items ≡ store }
{
    match close(rt, store, passes) {
        Ok(dies) => Ok(dies),
        Err(still) => Err(still.refusal),
    }
}

// Dies none of which is stopped, renewed.
fn renewed<N: Nand, R: Abort>(rt: &R, dies: Vec<DieCore<N>>) -> Vec<DieCore<N>>
    ensures { All IsAtStart result.items }
{
    match renew_each(dies) {
        Ok(dies) => dies,
        Err(_) => panic!(rt; "a die is not renewed"),
    }
}

// Plays two tables on the dies of a store that is made of these.
fn play_again<N: Nand, R: Wait + Abort + Env>(
    rt: &R,
    alloc: Global,
    dies: Vec<DieCore<N>>,
    first: &[Step],
    second: &[Step],
) -> Result<(), Refusal>
    requires { All IsAtStart dies.items }
{
    match Store::reopen(alloc, dies) {
        Ok((store, mut passes)) => {
            play_both(rt, alloc, &store, passes.as_mut_slice(), first, second)
        }
        Err(kept) => Err(kept.refusal),
    }
}

fn live_twice<R: Wait + Abort + Env>(rt: &R, alloc: Global) -> Result<(), Refusal> {
    let (store, mut passes) = two_dies(alloc)?;
    let both = passes.as_mut_slice();
    play_both(rt, alloc, &store, both, WRITES_ONES, WRITES_TWOS)?;
    let dies = closed(rt, store, passes)?;
    play_again(rt, alloc, renewed(rt, dies), READS_ONES, READS_TWOS)
}

#[test]
fn a_store_lives_twice(rt: HostRuntime) -> Result<(), Fail> {
    match live_twice(&rt, rt.alloc()) {
        Err(Refusal::NoMemory) if is_scarce(&rt) => Ok(live_twice(&rt, rt.alloc())?),
        answer => Ok(answer?),
    }
}

// The device of the first die fails at the second write.
#[rattlefmt::skip]
const STOPS: &[Step] = &[
    Submit { release: 0, due: 5, op: Op::Write(3, ONES), want: Ok(0) },
    Slot { want: Ok(Some(0)) },
    Submit { release: 1, due: 5, op: Op::Write(4, ONES), want: Ok(1) },
    Slot { want: Err(RefusedAt { entries: 3, refusal: Refusal::DeviceFault }) },
];

// What comes behind the first, which is dropped. Of any type: a die that is moved is dear to prove.
fn after_first<T: Drop>(items: Vec<T>) -> Vec<T> {
    let mut items = items;
    if !items.is_empty() {
        let _first = items.remove(0);
    }
    items
}

// Dies the first of which is stopped, which aren't renewed. Those that are left beside it.
fn left_of<N: Nand, R: Abort>(rt: &R, dies: Vec<DieCore<N>>) -> Vec<DieCore<N>> {
    let left = match renew_each(dies) {
        Ok(_) => panic!(rt; "a stopped die is renewed"),
        Err(no) => {
            assert_eq!(rt; (no.place, no.refusal), (0, RenewalRefusal::DieStopped));
            no.dies
        }
    };
    assert_eq!(rt; left.len(), 2);
    after_first(left)
}

// Plays a table on the die of a store that is made of this one.
fn play_left<N: Nand, R: Wait + Abort + Env>(
    rt: &R,
    alloc: Global,
    dies: Vec<DieCore<N>>,
    steps: &[Step],
) -> Result<(), Refusal>
    requires { All IsAtStart dies.items }
{
    match Store::reopen(alloc, dies) {
        Ok((store, mut passes)) => play_only(rt, alloc, &store, passes.as_mut_slice(), steps),
        Err(kept) => Err(kept.refusal),
    }
}

// Die 1 is die 0 of the store that is made of what is left.
fn live_on<R: Wait + Abort + Env>(rt: &R, alloc: Global) -> Result<(), Refusal> {
    let (store, mut passes) = faulty_dies(alloc)?;
    play_both(rt, alloc, &store, passes.as_mut_slice(), STOPS, WRITES_TWOS)?;
    let left = left_of(rt, closed(rt, store, passes)?);
    play_left(rt, alloc, renewed(rt, left), READS_TWOS)
}

#[test]
fn a_store_is_made_of_the_dies_that_are_left(rt: HostRuntime) -> Result<(), Fail> {
    match live_on(&rt, rt.alloc()) {
        Err(Refusal::NoMemory) if is_scarce(&rt) => Ok(live_on(&rt, rt.alloc())?),
        answer => Ok(answer?),
    }
}
