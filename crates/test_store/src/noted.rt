//! A gate that notes each call that it gets, and how many entries the die had then.

ghost use Rattle.std.specs.Prelude.{◌≡◌, map, slice_get, Some, IfOk};

use die_service::{DiePass, Gate, Store};
use flash_die::Nand;
use slot_types::Refusal;
use std::marker::Model;
use std::sync::{Mutex, Wait};

/// On which side of a slot a gate was called.
#[derive(PartialEq, Debug, Drop)]
pub(crate) enum Side {
    Before,
    After,
}

/// A call of a gate: with which die and which slot, and how many entries the die had. The entries tell which events
/// were asked for by then, and whether the slot was carried out.
#[derive(PartialEq, Debug, Drop)]
pub(crate) struct Called {
    pub(crate) side: Side,
    pub(crate) die: u32,
    pub(crate) slot: u32,
    pub(crate) entries: u64,
}

// A second pass of the die of this number.
fn split<N: Nand, R: Wait>(
    rt: &R,
    store: &Store<N>,
    number: u32,
    pass: &mut DiePass<N>,
) -> Result<DiePass<N>, Refusal>
    requires { slice_get store.now number ≡ Some pass.old.lock }
    ensures same { pass.new.lock ≡ pass.old.lock }
    ensures own { IfOk result (λ made. made.lock ≡ pass.old.lock) }
{
    match store.die(number) {
        Ok(die) => die.split_pass(rt, pass),
        Err(refusal) => Err(refusal),
    }
}

// A second pass of the die of this number, by the pass of it that stands in its place. `UnknownDie` where there is
// none.
fn split_at<N: Nand, R: Wait>(
    rt: &R,
    store: &Store<N>,
    number: u32,
    passes: &mut [DiePass<N>],
) -> Result<DiePass<N>, Refusal>
    requires { map (λ pass. pass.lock) passes.old ≡ store.now }
    ensures same { map (λ pass. pass.lock) passes.new ≡ store.now }
    ensures own { IfOk result (λ made. slice_get store.now number ≡ Some made.lock) }
{
    let place = number as usize;
    if place >= passes.len() {
        return Err(Refusal::UnknownDie);
    }
    split(rt, store, number, &mut passes[place])
}

/// A second pass of each of a store's first two dies, which may look on. `UnknownDie` where there are fewer passes.
pub(crate) fn split_both<N: Nand, R: Wait>(
    rt: &R,
    store: &Store<N>,
    passes: &mut [DiePass<N>],
) -> Result<(DiePass<N>, DiePass<N>), Refusal>
    requires { map (λ pass. pass.lock) passes.old ≡ store.now }
    ensures same { map (λ pass. pass.lock) passes.new ≡ store.now }
    ensures first { IfOk result (λ made. slice_get store.now 0 ≡ Some made.0.lock) }
    ensures second { IfOk result (λ made. slice_get store.now 1 ≡ Some made.1.lock) }
{
    let first = split_at(rt, store, 0, passes)?;
    let second = split_at(rt, store, 1, passes)?;
    Ok((first, second))
}

// How many entries the die of this number has: none, if it isn't there.
fn entries_of<N: Nand>(store: &Store<N>, number: u32, pass: &mut DiePass<N>) -> u64
    requires { slice_get store.now number ≡ Some pass.old.lock }
    ensures { pass.new.lock ≡ pass.old.lock }
{
    match store.die(number) {
        Ok(die) => die.look(pass),
        Err(_) => 0,
    }
}

/// A store of two dies, with a pass of each that looks on, and the calls so far. Contracts see the first pass.
#[derive(Drop)]
struct Notes<'a, N: Nand> {
    store: &'a Store<N>,
    first: DiePass<N>,
    second: DiePass<N>,
    calls: Vec<Called>,
}

impl<'a, N: Nand> Model for Notes<'a, N> {
    ghost use Rattle.std.specs.Prelude.{◌≡◌, slice_get, Some};
    ghost use Rattle.die_service.specs.Stores as stores;

    ghost Value = { stores.DiePass };

    ghost view = { λ n. n.first };

    ghost invariant = { λ n. (slice_get n.store.now 0 ≡ Some n.first.lock) × (slice_get n.store.now 1 ≡ Some n.second.lock) };
}

impl<'a, N: Nand> Notes<'a, N> {
    // How many entries a die has.
    fn entries(&mut self, die: u32) -> u64 {
        let store = self.store;
        match die {
            0 => entries_of(store, 0, &mut self.first),
            1 => entries_of(store, 1, &mut self.second),
            _ => 0,
        }
    }

    // Notes a call, in room that was made.
    fn add(&mut self, side: Side, die: u32, slot: u32) {
        let entries = self.entries(die);
        let _ = self.calls.push(Called {
            side,
            die,
            slot,
            entries,
        });
    }
}

/// A gate of two dies that notes its calls. It is for one worker: a call that comes while another is noted is lost.
#[derive(Drop)]
pub(crate) struct NoteGate<'a, N: Nand> {
    notes: Mutex<Notes<'a, N>>,
}

impl<'a, N: Nand> NoteGate<'a, N> {
    /// A gate of the two dies of a store, with a pass of each and room for the calls.
    pub(crate) fn new(
        store: &'a Store<N>,
        first: DiePass<N>,
        second: DiePass<N>,
        calls: Vec<Called>,
    ) -> NoteGate<'a, N>
        requires first { slice_get store.now 0 ≡ Some first.lock }
        requires second { slice_get store.now 1 ≡ Some second.lock }
    {
        NoteGate {
            notes: Mutex::new(Notes {
                store,
                first,
                second,
                calls,
            }),
        }
    }

    /// The calls, in their order.
    pub(crate) fn into_calls(self) -> Vec<Called> {
        self.notes.into_inner().calls
    }

    fn note(&self, side: Side, die: u32, slot: u32) {
        let Some(mut notes) = self.notes.try_lock() else {
            return;
        };
        notes.add(side, die, slot);
    }
}

impl<'a, N: Nand> Gate for NoteGate<'a, N> {
    fn before(&self, die: u32, slot: u32) {
        self.note(Side::Before, die, slot);
    }

    fn after(&self, die: u32, slot: u32) {
        self.note(Side::After, die, slot);
    }
}
