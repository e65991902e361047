//! What is asked of the dies of a store, by their passes in turn.

ghost use Rattle.std.specs.Prelude.{◌≡◌, map, slice_get, Some};

use die_service::{Die, DiePass, Store};
use flash_die::Nand;
use slot_types::{Act, Op, OpList, PageData, Refusal, TaskNo};
use std::alloc::Global;
use std::process::Abort;
use std::sync::Wait;

/// The page on which all tests write.
const PAGE: u32 = 3;

/// A job of one operation, which is carried in the present slot, and its act.
fn carried<N: Nand, R: Wait>(
    rt: &R,
    alloc: Global,
    die: &Die<N>,
    pass: &mut DiePass<N>,
    op: Op,
) -> Result<Option<Act>, Refusal>
    requires { pass.old.lock ≡ die.now }
    ensures { pass.new.lock ≡ pass.old.lock }
{
    let mut ops = OpList::new(alloc);
    ops.push(op)?;
    let now = die.now(rt, pass);
    if let Err(refused) = die.submit(rt, pass, TaskNo(0), now, now.saturating_add(5), ops) {
        return Err(refused.refusal);
    }
    match die.slot(rt, pass) {
        Ok(reply) => Ok(reply.ran.map(|(_, act)| act)),
        Err(refused) => Err(refused.refusal),
    }
}

/// Reads the page, which has to have these bytes, and writes it, once for each of those.
fn reads_and_writes<N: Nand, R: Wait + Abort>(
    rt: &R,
    alloc: Global,
    die: &Die<N>,
    pass: &mut DiePass<N>,
    want: PageData,
    writes: &[PageData],
) -> Result<(), Refusal>
    requires { pass.old.lock ≡ die.now }
    ensures { pass.new.lock ≡ pass.old.lock }
{
    let read = carried(rt, alloc, die, pass, Op::Read(PAGE))?;
    assert_eq!(rt;
        read,
        Some(Act::Read {
            page: PAGE,
            bytes: want
        })
    );
    for bytes in writes {
        let written = carried(rt, alloc, die, pass, Op::Write(PAGE, *bytes))?;
        assert_eq!(rt;
            written,
            Some(Act::Write {
                page: PAGE,
                bytes: *bytes
            })
        );
    }
    Ok(())
}

/// The same on the die of this number.
fn play_nth<N: Nand, R: Wait + Abort>(
    rt: &R,
    alloc: Global,
    store: &Store<N>,
    number: u32,
    pass: &mut DiePass<N>,
    want: PageData,
    writes: &[PageData],
) -> Result<(), Refusal>
    requires { slice_get store.now number ≡ Some pass.old.lock }
    ensures { pass.new.lock ≡ pass.old.lock }
{
    match store.die(number) {
        Ok(die) => reads_and_writes(rt, alloc, die, pass, want, writes),
        Err(refusal) => Err(refusal),
    }
}

/// The same on a store's third die. `UnknownDie` where there is another number of passes behind the second.
fn play_third<N: Nand, R: Wait + Abort>(
    rt: &R,
    alloc: Global,
    store: &Store<N>,
    passes: &mut [DiePass<N>],
    want: PageData,
    writes: &[PageData],
) -> Result<(), Refusal>
    requires { slice_get store.now 2 ≡ slice_get (map (λ pass. pass.lock) passes.old) 0 }
    ensures { map (λ pass. pass.lock) passes.new ≡ map (λ pass. pass.lock) passes.old }
{
    match passes {
        [pass] => play_nth(rt, alloc, store, 2, pass, want, writes),
        _ => Err(Refusal::UnknownDie),
    }
}

/// The same on a store's second die and its third.
fn play_others<N: Nand, R: Wait + Abort>(
    rt: &R,
    alloc: Global,
    store: &Store<N>,
    passes: &mut [DiePass<N>],
    wants: [PageData; 2],
    writes: &[PageData],
) -> Result<(), Refusal>
    requires second { slice_get store.now 1 ≡ slice_get (map (λ pass. pass.lock) passes.old) 0 }
    requires third { slice_get store.now 2 ≡ slice_get (map (λ pass. pass.lock) passes.old) 1 }
    ensures { map (λ pass. pass.lock) passes.new ≡ map (λ pass. pass.lock) passes.old }
{
    match passes.split_first_mut() {
        Some((pass, rest)) => {
            play_nth(rt, alloc, store, 1, pass, wants[0], writes)?;
            play_third(rt, alloc, store, rest, wants[1], writes)
        }
        None => Err(Refusal::UnknownDie),
    }
}

/// The same on each die of a store of three, in turn: the page of each has to have the bytes at its place.
pub(crate) fn play<N: Nand, R: Wait + Abort>(
    rt: &R,
    alloc: Global,
    store: &Store<N>,
    passes: &mut [DiePass<N>],
    wants: [PageData; 3],
    writes: &[PageData],
) -> Result<(), Refusal>
    requires { map (λ pass. pass.lock) passes.old ≡ store.now }
    ensures { map (λ pass. pass.lock) passes.new ≡ store.now }
{
    match passes.split_first_mut() {
        Some((pass, rest)) => {
            play_nth(rt, alloc, store, 0, pass, wants[0], writes)?;
            play_others(rt, alloc, store, rest, [wants[1], wants[2]], writes)
        }
        None => Err(Refusal::UnknownDie),
    }
}
