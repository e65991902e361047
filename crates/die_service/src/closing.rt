//! Closing a store.

ghost use Rattle.std.specs.Prelude.{◌≡◌, ◌≤◌, true, false, [], map, length, All, IfOk, IfErr, vec_capacity};
ghost use Rattle.std.specs.List.{AllZip};
ghost use Rattle.die_service.specs.Stores.{AreReported, StayOpen, HasLogOf, IsClosedWith};

use crate::die::{Die, DiePass};
use crate::store::Store;
use flash_die::Nand;
use slot_core::DieCore;
use slot_types::Refusal;
use std::sync::Wait;

/// What a refused [`close`] hands back: the store as it was, and the passes, which may have seen more.
#[derive(Drop)]
pub struct StillOpen<N: Nand> {
    pub store: Store<N>,
    pub passes: Vec<DiePass<N>>,
    /// `PassesOut`, with what `out` answered on the first die that has passes out, or `NoMemory`.
    pub refusal: Refusal,
}

/// What `out` answers on the first die where it isn't 0, or 0.
fn first_out<N: Nand, R: Wait>(rt: &R, dies: &[Die<N>], passes: &mut [DiePass<N>]) -> u32
    requires own { map (λ pass. pass.lock) passes.old ≡ dies.now }
    ensures said { AreReported passes.old result passes.new }
{
    let Some((die, dies)) = dies.split_first() else {
        return 0;
    };
    let Some((pass, passes)) = passes.split_first_mut() else {
        return 0;
    };
    let out = die.out(rt, pass);
    if out > 0 {
        return out;
    }
    first_out(rt, dies, passes)
}

/// Closes dies of which no other passes are left, into room that was made.
fn close_each<N: Nand, R: Wait>(
    rt: &R,
    dies: Vec<Die<N>>,
    passes: Vec<DiePass<N>>,
    cores: Vec<DieCore<N>>,
) -> Vec<DieCore<N>>
    requires own { map (λ pass. pass.lock) passes.items ≡ dies.items }
    requires sole { All (λ pass. pass.view.sole ≡ true) passes.items }
    requires none { cores.items ≡ [] }
    requires room { length passes.items ≤ vec_capacity cores }
    ensures { AllZip (HasLogOf N.never_fails) passes.items result.items }
{
    let mut cores = cores;
    let mut dies = dies.into_iter();
    for pass in passes {
        let Some(die) = dies.next() else {
            unreachable!()
        };
        let Ok(book) = die.turned.close(rt, pass) else {
            unreachable!()
        };
        let core = book.into_core();
        // It says what is promised of the die's log.
        core.promises();
        cores.push_reserved(core);
    }
    cores
}

/// Ends a store, and gives its dies back in order, whose logs are what their passes had seen: each call in a log is by
/// the die's pass or by one that was joined into it. It takes one pass of each die, in order. May wait for the turn of
/// each die. All that is promised of a log is kept by each, and a die whose device never fails isn't stopped.
///
/// `PassesOut` with what `out` answers on the first die where it isn't 0; else `NoMemory` where memory is refused. No
/// die is closed then, and the store and all passes are handed back.
///
/// Where each pass knows that no other pass of its die is left, as those of a store just made do, only memory can be
/// refused.
pub fn close<N: Nand, R: Wait>(
    rt: &R,
    store: Store<N>,
    passes: Vec<DiePass<N>>,
) -> Result<Vec<DieCore<N>>, StillOpen<N>>
    requires own { map (λ pass. pass.lock) passes.items ≡ store }
    ensures closed { IfOk result (λ dies. AllZip IsClosedWith passes.items dies.items) }
    ensures runs { IfOk result (λ dies.
        N.never_fails ≡ true → All (λ die. die.stopped ≡ false) dies.items) }
    ensures refused { IfErr result (λ kept. StayOpen passes.items kept.refusal kept.passes.items) }
    ensures back { IfErr result (λ kept. kept.store ≡ store) }
    ensures own { IfErr result (λ kept. map (λ pass. pass.lock) kept.passes.items ≡ kept.store) }
    ensures sole { All (λ pass. pass.view.sole ≡ true) passes.items → IfErr result (λ kept.
        kept.refusal ≡ Refusal.NoMemory) }
{
    let mut passes = passes;
    let out = first_out(rt, store.dies.as_slice(), passes.as_mut_slice());
    if out > 0 {
        return Err(StillOpen {
            store,
            passes,
            refusal: Refusal::PassesOut { out },
        });
    }
    let cores = match Vec::with_capacity(store.alloc, passes.len()) {
        Ok(cores) => cores,
        Err(_) => {
            return Err(StillOpen {
                store,
                passes,
                refusal: Refusal::NoMemory,
            });
        }
    };
    let Store { dies, alloc: _ } = store;
    Ok(close_each(rt, dies, passes, cores))
}
