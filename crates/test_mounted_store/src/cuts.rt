//! Lives of a store whose dies begin on their parts, with cuts of the power between them.

ghost use Rattle.std.specs.Prelude.{◌≡◌, map, All, IfOk};
ghost use Rattle.device_mount.specs.Mounted.{HasBegun};

use crate::parts::{Die, blank, cut, push_mounted};
use crate::turns::play;
use die_service::{DiePass, Store, close};
use flash_die::Nand;
use labelled_die::BesideNand;
use labelled_nand::{LabelledMemory, LabelledNand};
use mounted_store::store_of;
use slot_core::DieCore;
use slot_types::{PageData, Refusal};
use std::alloc::Global;
use std::process::Abort;
use std::sync::Wait;
use std::test::Fail;

const ONES: PageData = PageData([0x11; 16]);

const TWOS: PageData = PageData([0x22; 16]);

const THREES: PageData = PageData([0x33; 16]);

/// Three of a kind.
#[derive(Drop)]
struct Three<T> {
    first: T,
    second: T,
    third: T,
}

/// The last of these.
fn last<T: Drop>(items: &mut Vec<T>) -> Result<T, Refusal> {
    match items.pop() {
        Some(item) => Ok(item),
        None => Err(Refusal::UnknownDie),
    }
}

/// The last three of these.
fn last_three<T: Drop>(items: Vec<T>) -> Result<Three<T>, Refusal> {
    let mut items = items;
    let third = last(&mut items)?;
    let second = last(&mut items)?;
    let first = last(&mut items)?;
    Ok(Three {
        first,
        second,
        third,
    })
}

/// The dies that begin on these parts.
fn dies_on<R: Abort>(
    rt: &R,
    alloc: Global,
    parts: Three<LabelledMemory>,
) -> Result<Vec<Die>, Refusal>
    ensures { IfOk result (λ dies. All (λ die. HasBegun die.start.plan die) dies.items) }
{
    let mut dies = Vec::new(alloc);
    push_mounted(rt, alloc, &mut dies, parts.first)?;
    push_mounted(rt, alloc, &mut dies, parts.second)?;
    push_mounted(rt, alloc, &mut dies, parts.third)?;
    Ok(dies)
}

/// A store of dies that have begun.
fn opened<N: Nand>(
    alloc: Global,
    dies: Vec<DieCore<N>>,
) -> Result<(Store<N>, Vec<DiePass<N>>), Refusal>
    requires { All (λ die. HasBegun die.start.plan die) dies.items }
    ensures { IfOk result (λ made. map (λ pass. pass.lock) made.1.items ≡ made.0) }
{
    match store_of(alloc, dies) {
        Ok(made) => Ok(made),
        Err(kept) => Err(kept.refusal),
    }
}

/// The dies of a store that is closed.
fn closed<N: Nand, R: Wait>(
    rt: &R,
    store: Store<N>,
    passes: Vec<DiePass<N>>,
) -> Result<Vec<DieCore<N>>, Refusal>
    requires { map (λ pass. pass.lock) passes.items ≡ store }
{
    match close(rt, store, passes) {
        Ok(dies) => Ok(dies),
        Err(still) => Err(still.refusal),
    }
}

/// What a store of three dies does in a life: each page has to be as wanted, and is then written. The dies after it.
fn lived<N: Nand, R: Wait + Abort>(
    rt: &R,
    alloc: Global,
    dies: Vec<DieCore<N>>,
    wants: [PageData; 3],
    writes: &[PageData],
) -> Result<Vec<DieCore<N>>, Refusal>
    requires { All (λ die. HasBegun die.start.plan die) dies.items }
{
    let (store, mut passes) = opened(alloc, dies)?;
    play(rt, alloc, &store, passes.as_mut_slice(), wants, writes)?;
    closed(rt, store, passes)
}

/// The parts of dies that are given up.
fn parts_of<N: LabelledNand>(dies: Three<DieCore<BesideNand<N>>>) -> Three<N> {
    Three {
        first: dies.first.into_device().into_part(),
        second: dies.second.into_device().into_part(),
        third: dies.third.into_device().into_part(),
    }
}

/// A life of a store on these parts (`lived`), and the parts after it.
fn life<R: Wait + Abort>(
    rt: &R,
    alloc: Global,
    parts: Three<LabelledMemory>,
    wants: [PageData; 3],
    writes: &[PageData],
) -> Result<Three<LabelledMemory>, Refusal> {
    let dies = dies_on(rt, alloc, parts)?;
    let after = lived(rt, alloc, dies, wants, writes)?;
    Ok(parts_of(last_three(after)?))
}

/// Three dies write twice. The first loses its power in the second write, and a blank part takes the place of the third.
/// All write once in the next life, in which the last two lose their power.
fn lives<R: Wait + Abort>(rt: &R, alloc: Global) -> Result<(), Refusal> {
    let all = Three {
        first: blank(alloc)?,
        second: blank(alloc)?,
        third: blank(alloc)?,
    };
    let mut all = life(rt, alloc, all, [PageData::BLANK; 3], &[ONES, TWOS])?;
    cut(&mut all.first);
    all.third = blank(alloc)?;
    let wants = [ONES, TWOS, PageData::BLANK];
    let mut all = life(rt, alloc, all, wants, &[THREES])?;
    cut(&mut all.second);
    cut(&mut all.third);
    let wants = [THREES, TWOS, PageData::BLANK];
    let _parts = life(rt, alloc, all, wants, &[])?;
    Ok(())
}

#[test]
fn parts_that_were_cut_and_a_blank_one_are_a_store(rt: HostRuntime) -> Result<(), Fail> {
    Ok(lives(&rt, rt.alloc())?)
}
