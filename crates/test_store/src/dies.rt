//! Tables that are played on the dies of a store.

ghost use Rattle.std.specs.Prelude.{◌≡◌, map, slice_get, Some};

use crate::played::play;
use crate::steps::Step;
use die_service::{DiePass, Store};
use flash_die::Nand;
use slot_types::Refusal;
use std::alloc::Global;
use std::env::Env;
use std::process::Abort;
use std::sync::Wait;

// Plays a table on the die of this number. `UnknownDie` where the store doesn't have it.
fn play_nth<N: Nand, R: Wait + Abort + Env>(
    rt: &R,
    alloc: Global,
    store: &Store<N>,
    number: u32,
    pass: &mut DiePass<N>,
    table: &str,
    steps: &[Step],
) -> Result<(), Refusal>
    requires { slice_get store.now number ≡ Some pass.old.lock }
    ensures { pass.new.lock ≡ pass.old.lock }
{
    match store.die(number) {
        Ok(die) => {
            play(rt, alloc, die, pass, table, steps);
            Ok(())
        }
        Err(refusal) => Err(refusal),
    }
}

// Plays a table on a store's second die. `UnknownDie` where there is another number of passes behind the first.
fn play_second<N: Nand, R: Wait + Abort + Env>(
    rt: &R,
    alloc: Global,
    store: &Store<N>,
    passes: &mut [DiePass<N>],
    steps: &[Step],
) -> Result<(), Refusal>
    requires { slice_get store.now 1 ≡ slice_get (map (λ pass. pass.lock) passes.old) 0 }
    ensures { map (λ pass. pass.lock) passes.new ≡ map (λ pass. pass.lock) passes.old }
{
    match passes {
        [pass] => play_nth(rt, alloc, store, 1, pass, "second table", steps),
        _ => Err(Refusal::UnknownDie),
    }
}

/// Plays two tables, one on each of a store's two dies, one after the other. `UnknownDie` where there are other than
/// two passes.
pub(crate) fn play_both<N: Nand, R: Wait + Abort + Env>(
    rt: &R,
    alloc: Global,
    store: &Store<N>,
    passes: &mut [DiePass<N>],
    first: &[Step],
    second: &[Step],
) -> Result<(), Refusal>
    requires { map (λ pass. pass.lock) passes.old ≡ store.now }
    ensures { map (λ pass. pass.lock) passes.new ≡ store.now }
{
    match passes.split_first_mut() {
        Some((pass, rest)) => {
            play_nth(rt, alloc, store, 0, pass, "first table", first)?;
            play_second(rt, alloc, store, rest, second)
        }
        None => Err(Refusal::UnknownDie),
    }
}

/// Plays a table on a store's only die. `UnknownDie` where there is another number of passes.
pub(crate) fn play_only<N: Nand, R: Wait + Abort + Env>(
    rt: &R,
    alloc: Global,
    store: &Store<N>,
    passes: &mut [DiePass<N>],
    steps: &[Step],
) -> Result<(), Refusal>
    requires { map (λ pass. pass.lock) passes.old ≡ store.now }
    ensures { map (λ pass. pass.lock) passes.new ≡ store.now }
{
    match passes {
        [pass] => play_nth(rt, alloc, store, 0, pass, "table", steps),
        _ => Err(Refusal::UnknownDie),
    }
}
