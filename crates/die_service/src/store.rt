//! A store: its dies. It is made of devices on which nothing was done, or of the dies that a store was closed into.

ghost use Rattle.std.specs.Prelude.{◌≡◌, ◌↔◌, ◌≤◌, ◌⊎◌, All, IsTrue, IsOk, IsErr, IfOk, IfErr, Some, length, map, slice_get, vec_len};
ghost use Rattle.slot_types.specs.Refusal.{FailsForMemory};
ghost use Rattle.slot_types.specs.Shapes.{IsShape};
ghost use Rattle.plan_rules.specs.Bound.{MeetsBound};
ghost use Rattle.flash_die.specs.Flash.{IsFresh};
ghost use Rattle.die_log.specs.Model.Start.{fresh};
ghost use Rattle.turn_lock.specs.Views.{first_view, IsLive};
ghost use Rattle.die_service.specs.Stores.{Fit, IsShaped, HasUsablePlans, IsAtStart, IsDieCount};

use crate::die::{Die, DiePass};
use crate::opening::open_each;
use flash_die::Nand;
use plan_rules::bound;
use slot_core::DieCore;
use slot_types::{DiePlan, MAX_DIES, Refusal, StorePlan};
use std::alloc::Global;
use std::marker::Model;

/// The dies of a store, each behind a lock of its own. Contracts see their locks.
#[derive(Drop)]
pub struct Store<N: Nand> {
    pub(crate) dies: Vec<Die<N>>,
    pub(crate) alloc: Global,
}

impl<N: Nand> Model for Store<N> {
    ghost use Rattle.std.specs.Prelude.{◌≤◌, List, length};
    ghost use Rattle.atomic_table.specs.Seated.{TableId};

    ghost Value = { List TableId };

    ghost view = { λ s. s.dies.items };

    ghost invariant = { λ s. length s.dies.items ≤ 8 };
}

/// What a refused [`Store::reopen`] hands back: the dies as they were.
#[derive(Drop)]
pub struct StillClosed<N: Nand> {
    pub dies: Vec<DieCore<N>>,
    pub refusal: Refusal,
}

impl<N: Nand> StillClosed<N> {
    fn for_memory(dies: Vec<DieCore<N>>) -> StillClosed<N>
        ensures { result ≡ record { dies = dies; refusal = Refusal.NoMemory } }
    {
        StillClosed {
            dies,
            refusal: Refusal::NoMemory,
        }
    }
}

/// Whether a store may have `count` dies.
fn may_have_dies(count: usize) -> bool
    ensures { IsTrue result ↔ IsDieCount count }
{
    1 <= count && count <= MAX_DIES as usize
}

/// Whether each shape is within its limits.
fn are_shapes(plans: &[DiePlan]) -> bool
    ensures { IsTrue result ↔ All (λ plan. IsShape plan.shape) plans.now }
{
    plans
        .iter()
        .all(|plan| bound(plan) != Err(Refusal::BadShape))
}

/// Whether each plan meets its bound.
fn are_bound(plans: &[DiePlan]) -> bool
    ensures { IsTrue result ↔ All MeetsBound plans.now }
{
    plans.iter().all(|plan| bound(plan).is_ok())
}

/// Whether each device has the shape of the die in its place.
fn do_fit<N: Nand>(plans: &[DiePlan], nands: &[N]) -> bool
    ensures { IsTrue result ↔ Fit plans.now (map N.shape_of nands.now) }
{
    match (plans.split_first(), nands.split_first()) {
        (Some((plan, plans)), Some((nand, nands))) => {
            nand.shape() == plan.shape && do_fit(plans, nands)
        }
        _ => true,
    }
}

/// Why a store isn't made of these, if memory is no matter.
fn refusal_of<N: Nand>(plans: &[DiePlan], nands: &[N]) -> Result<(), Refusal>
    ensures ok { IsOk result
        ↔ (IsShaped plans.now (map N.shape_of nands.now)
        × HasUsablePlans plans.now (length nands.now)) }
    ensures bad_shape { (result ≡ Err Refusal.BadShape)
        ↔ ¬ IsShaped plans.now (map N.shape_of nands.now) }
    ensures bad_plan { (result ≡ Err Refusal.BadPlan)
        ↔ (IsShaped plans.now (map N.shape_of nands.now)
        × ¬ HasUsablePlans plans.now (length nands.now)) }
    ensures refused { IfErr result (λ refusal.
        (refusal ≡ Refusal.BadShape) ⊎ (refusal ≡ Refusal.BadPlan)) }
{
    if plans.is_empty()
        || plans.len() > MAX_DIES as usize
        || !are_shapes(plans)
        || !do_fit(plans, nands)
    {
        return Err(Refusal::BadShape);
    }
    if nands.len() != plans.len() || !are_bound(plans) {
        return Err(Refusal::BadPlan);
    }
    Ok(())
}

/// A die that can be made.
fn new_core<N: Nand>(alloc: Global, plan: DiePlan, nand: N) -> Result<DieCore<N>, Refusal>
    requires fresh { IsFresh (N.shape_of nand) (N.blocks nand) (N.failures nand) }
    requires fits { N.shape_of nand ≡ plan.shape }
    requires bound { MeetsBound plan }
    ensures start { IfOk result (λ core. core.start ≡ fresh plan) }
    ensures at_start { IfOk result IsAtStart }
    ensures refused { FailsForMemory result }
{
    DieCore::new(alloc, plan, nand)
}

/// Makes each die with its device, in order.
fn new_cores<N: Nand>(
    alloc: Global,
    plans: Vec<DiePlan>,
    nands: Vec<N>,
) -> Result<Vec<DieCore<N>>, Refusal>
    requires fresh { All (λ nand.
        IsFresh (N.shape_of nand) (N.blocks nand) (N.failures nand)) nands.items }
    requires fit { Fit plans.items (map N.shape_of nands.items) }
    requires served { HasUsablePlans plans.items (vec_len nands) }
    ensures starts { IfOk result (λ cores.
        map (λ core. core.start) cores.items ≡ map fresh plans.items) }
    ensures at_start { IfOk result (λ cores. All IsAtStart cores.items) }
    ensures refused { FailsForMemory result }
{
    let mut cores = Vec::with_capacity(alloc, plans.len())?;
    let mut nands = nands.into_iter();
    for plan in plans {
        let Some(nand) = nands.next() else {
            unreachable!()
        };
        cores.push_reserved(new_core(alloc, plan, nand)?);
    }
    Ok(cores)
}

/// The store of these dies, and the first pass of each.
fn open_all<N: Nand>(
    alloc: Global,
    dies: Vec<DieCore<N>>,
) -> Result<(Store<N>, Vec<DiePass<N>>), StillClosed<N>>
    requires start { All IsAtStart dies.items }
    requires few { length dies.items ≤ 8 }
    ensures own { IfOk result (λ made. map (λ pass. pass.lock) made.1.items ≡ made.0) }
    ensures first { IfOk result (λ made.
        map (λ pass. pass.view) made.1.items ≡ map (λ die. first_view die.start) dies.items) }
    ensures refused { IfErr result (λ kept. kept.refusal ≡ Refusal.NoMemory) }
    ensures back { IfErr result (λ kept. kept.dies.items ≡ dies.items) }
{
    let count = dies.len();
    let mut cores = dies;
    let mut opened = match Vec::with_capacity(alloc, count) {
        Ok(opened) => opened,
        Err(_) => return Err(StillClosed::for_memory(cores)),
    };
    let mut passes = match Vec::with_capacity(alloc, count) {
        Ok(passes) => passes,
        Err(_) => return Err(StillClosed::for_memory(cores)),
    };
    match open_each(alloc, &mut cores, &mut opened, &mut passes) {
        Ok(()) => Ok((
            Store {
                dies: opened,
                alloc,
            },
            passes,
        )),
        Err(_) => Err(StillClosed::for_memory(cores)),
    }
}

/// The store of these plans and devices, and the first pass of each die.
fn make_store<N: Nand>(
    alloc: Global,
    plans: Vec<DiePlan>,
    nands: Vec<N>,
) -> Result<(Store<N>, Vec<DiePass<N>>), Refusal>
    requires fresh { All (λ nand.
        IsFresh (N.shape_of nand) (N.blocks nand) (N.failures nand)) nands.items }
    requires fit { Fit plans.items (map N.shape_of nands.items) }
    requires served { HasUsablePlans plans.items (vec_len nands) }
    requires few { length plans.items ≤ 8 }
    ensures own { IfOk result (λ made. map (λ pass. pass.lock) made.1.items ≡ made.0) }
    ensures first { IfOk result (λ made.
        map (λ pass. pass.view) made.1.items ≡ map first_view (map fresh plans.items)) }
    ensures refused { FailsForMemory result }
{
    let dies = new_cores(alloc, plans, nands)?;
    match open_all(alloc, dies) {
        Ok(made) => Ok(made),
        Err(StillClosed { dies: _, refusal }) => Err(refusal),
    }
}

impl<N: Nand> Store<N> {
    /// A store on which nothing was done: each plan with the device in its place, which has to be fresh, and the first
    /// pass of each die.
    ///
    /// `BadShape` where there are not 1 to 8 dies, a shape is out of its limits, or a device has another shape than the
    /// die in its place; else `BadPlan` where there are not as many devices as dies, or a plan doesn't meet its bound;
    /// else `NoMemory` where memory is refused. Plan and devices are given up then.
    pub fn new(
        alloc: Global,
        plan: StorePlan,
        nands: Vec<N>,
    ) -> Result<(Store<N>, Vec<DiePass<N>>), Refusal>
        requires fresh { All (λ nand.
            IsFresh (N.shape_of nand) (N.blocks nand) (N.failures nand)) nands.items }
        ensures own { IfOk result (λ made. map (λ pass. pass.lock) made.1.items ≡ made.0) }
        ensures first { IfOk result (λ made.
            map (λ pass. pass.view) made.1.items ≡ map first_view (map fresh plan)) }
        ensures live { IfOk result (λ made. All (λ pass. IsLive pass.view) made.1.items) }
        ensures bad_shape { (result ≡ Err Refusal.BadShape)
            ↔ ¬ IsShaped plan (map N.shape_of nands.items) }
        ensures bad_plan { (result ≡ Err Refusal.BadPlan)
            ↔ (IsShaped plan (map N.shape_of nands.items) × ¬ HasUsablePlans plan (vec_len nands)) }
        ensures refused { IfErr result (λ refusal.
            (refusal ≡ Refusal.BadShape) ⊎ (refusal ≡ Refusal.BadPlan)
            ⊎ (refusal ≡ Refusal.NoMemory)) }
    {
        refusal_of(plan.as_slice(), nands.as_slice())?;
        let made = make_store(alloc, plan.into_vec(), nands)?;
        Ok(made)
    }

    /// A store of dies that another store was closed into, each at the start of a log, as [`DieCore::renew`] leaves it;
    /// and the first pass of each die. A die's pages hold what they held, and all that is promised of a log that begins
    /// at its start is kept from then on. The dies may be fewer than before, as where one was stopped: their numbers
    /// are their places.
    ///
    /// `BadShape` where there are not 1 to 8 dies; else `NoMemory` where memory is refused. All dies are handed back
    /// then, as they were.
    pub fn reopen(
        alloc: Global,
        dies: Vec<DieCore<N>>,
    ) -> Result<(Store<N>, Vec<DiePass<N>>), StillClosed<N>>
        requires start { All IsAtStart dies.items }
        ensures own { IfOk result (λ made. map (λ pass. pass.lock) made.1.items ≡ made.0) }
        ensures first { IfOk result (λ made.
            map (λ pass. pass.view) made.1.items ≡ map (λ die. first_view die.start) dies.items) }
        ensures live { IfOk result (λ made. All (λ pass. IsLive pass.view) made.1.items) }
        ensures count { IfOk result (λ _. IsDieCount (length dies.items)) }
        ensures bad_shape { IfErr result (λ kept.
            (kept.refusal ≡ Refusal.BadShape) ↔ ¬ IsDieCount (length dies.items)) }
        ensures refused { IfErr result (λ kept.
            (kept.refusal ≡ Refusal.BadShape) ⊎ (kept.refusal ≡ Refusal.NoMemory)) }
        ensures back { IfErr result (λ kept. kept.dies.items ≡ dies.items) }
    {
        if !may_have_dies(dies.len()) {
            return Err(StillClosed {
                dies,
                refusal: Refusal::BadShape,
            });
        }
        match open_all(alloc, dies) {
            Ok(made) => Ok(made),
            Err(kept) => Err(kept),
        }
    }

    /// The die of a number from 0. `UnknownDie` exactly from the number of dies on.
    pub fn die(&self, die: u32) -> Result<&Die<N>, Refusal>
        ensures ok { IfOk result (λ found. slice_get self.now die ≡ Some found.now) }
        ensures unknown { IsErr result ↔ (length self.now ≤ die) }
        ensures refused { IfErr result (λ refusal. refusal ≡ Refusal.UnknownDie) }
    {
        match self.dies.get(die as usize) {
            Some(found) => Ok(found),
            None => Err(Refusal::UnknownDie),
        }
    }

    /// How many dies there are.
    pub fn dies(&self) -> u32
        ensures { result ≡ length self.now }
    {
        self.dies.len() as u32
    }
}
