//! A store of dies that begin on their parts: mounted, or started from what a clean shutdown saved.

ghost use Rattle.std.specs.Prelude.{◌≡◌, ◌↔◌, ◌⊎◌, All, IfOk, IfErr, length, map};
ghost use Rattle.turn_lock.specs.Views.{first_view, IsLive};
ghost use Rattle.die_service.specs.Stores.{IsDieCount};
ghost use Rattle.device_mount.specs.Mounted.{HasBegun};

use die_service::{DiePass, StillClosed, Store};
use flash_die::Nand;
use slot_core::DieCore;
use slot_types::Refusal;
use std::alloc::Global;

/// A store of dies in which nothing has happened yet, and the first pass of each: dies that were mounted from their parts
/// (`device_mount::mount`) or started there (`clean_shutdown::start_up`), whether their parts were blank or not. Each pass
/// sees the pages with which its die begins.
///
/// Refused as [`Store::reopen`] is, and the dies are handed back then.
pub fn store_of<N: Nand>(
    alloc: Global,
    dies: Vec<DieCore<N>>,
) -> Result<(Store<N>, Vec<DiePass<N>>), StillClosed<N>>
    requires begun { All (λ die. HasBegun die.start.plan die) dies.items }
    ensures own { IfOk result (λ made. map (λ pass. pass.lock) made.1.items ≡ made.0) }
    ensures first { IfOk result (λ made.
        map (λ pass. pass.view) made.1.items ≡ map (λ die. first_view die.start) dies.items) }
    ensures live { IfOk result (λ made. All (λ pass. IsLive pass.view) made.1.items) }
    ensures count { IfOk result (λ _. IsDieCount (length dies.items)) }
    ensures bad_shape { IfErr result (λ kept.
        (kept.refusal ≡ Refusal.BadShape) ↔ ¬ IsDieCount (length dies.items)) }
    ensures refused { IfErr result (λ kept.
        (kept.refusal ≡ Refusal.BadShape) ⊎ (kept.refusal ≡ Refusal.NoMemory)) }
    ensures back { IfErr result (λ kept. kept.dies.items ≡ dies.items) }
{
    Store::reopen(alloc, dies)
}
