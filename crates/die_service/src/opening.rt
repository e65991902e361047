//! Dies that get their locks.

ghost use Rattle.std.specs.Prelude.{◌≡◌, ◌≤◌, [], All, length, map, vec_len, vec_capacity, IfOk, IfErr, OnOk, OnErr};
ghost use Rattle.slot_types.specs.Refusal.{FailsForMemory};
ghost use Rattle.turn_lock.specs.Views.{first_view};
ghost use Rattle.die_service.specs.Stores.{IsAtStart};

use crate::book::DieBook;
use crate::die::{Die, DiePass};
use flash_die::Nand;
use slot_core::DieCore;
use slot_types::Refusal;
use std::alloc::{AllocFailed, Global};
use turn_lock::NewLock;

/// A die behind a lock that nobody has used. Where memory is refused, the die is handed back.
fn new_lock<N: Nand>(alloc: Global, core: DieCore<N>) -> Result<NewLock<DieBook<N>>, DieCore<N>>
    requires start { IsAtStart core }
    ensures locked { IfOk result (λ lock. lock ≡ core) }
    ensures back { IfErr result (λ kept. kept ≡ core) }
{
    let book = match Box::new(alloc, core) {
        Ok(core) => DieBook::new(alloc, core),
        Err(AllocFailed { value }) => return Err(value),
    };
    match NewLock::new(alloc, book) {
        Ok(lock) => Ok(lock),
        Err(AllocFailed { value }) => Err(value.into_core()),
    }
}

/// Puts each die behind a lock of its own, with its first pass, into room that was made. The only refusal is out of
/// memory, and each die is in its place then: no lock is used before there is memory for all, and so each gives its die
/// back as it was.
pub(crate) fn open_each<N: Nand>(
    alloc: Global,
    cores: &mut Vec<DieCore<N>>,
    dies: &mut Vec<Die<N>>,
    passes: &mut Vec<DiePass<N>>,
) -> Result<(), Refusal>
    requires start { All IsAtStart cores.old.items }
    requires no_dies { dies.old.items ≡ [] }
    requires no_passes { passes.old.items ≡ [] }
    requires dies_room { vec_len cores.old ≤ vec_capacity dies.old }
    requires passes_room { vec_len cores.old ≤ vec_capacity passes.old }
    ensures own { OnOk result (map (λ pass. pass.lock) passes.new.items ≡ dies.new.items) }
    ensures first { OnOk result (map (λ pass. pass.view) passes.new.items ≡ map (λ core.
        first_view core.start) cores.old.items) }
    ensures refused { FailsForMemory result }
    ensures back { OnErr result (cores.new.items ≡ cores.old.items) }
    ensures count { OnOk result (vec_len dies.new ≡ vec_len cores.old) }
    ensures passes_count { OnOk result (vec_len passes.new ≡ vec_len cores.old) }
    ensures room { vec_capacity cores.new ≡ vec_capacity cores.old }
    ensures dies_room { vec_capacity dies.new ≡ vec_capacity dies.old }
    ensures passes_room { vec_capacity passes.new ≡ vec_capacity passes.old }
{
    let Some(core) = cores.pop() else {
        return Ok(());
    };
    let lock = match new_lock(alloc, core) {
        Ok(lock) => lock,
        Err(core) => {
            cores.push_reserved(core);
            return Err(Refusal::NoMemory);
        }
    };
    if let Err(refusal) = open_each(alloc, cores, dies, passes) {
        cores.push_reserved(lock.into_book().into_core());
        return Err(refusal);
    }
    let (turned, pass) = lock.start();
    dies.push_reserved(Die { turned });
    passes.push_reserved(pass);
    Ok(())
}
