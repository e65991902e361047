//! What a die tells of its next slot, in words.

use crate::said::Reported;
use flash_die::{Nand, NandCall};
use slot_core::{DieCore, NextAct};
use slot_types::{Place, Refusal};
use std::alloc::Global;

fn put_next_act(said: &mut Reported, act: NextAct) -> Result<(), Refusal> {
    match act {
        NextAct::Read { page } => said.numbered("R", page),
        NextAct::Write { page } => said.numbered("W", page),
        NextAct::Trim { page } => said.numbered("T", page),
        NextAct::CopyRead { page } => said.numbered("copy-out", page),
        NextAct::CopyProgram { page } => said.numbered("copy-in", page),
        NextAct::Erase { block } => said.numbered("erase", block),
    }
}

fn put_place(said: &mut Reported, place: Place) -> Result<(), Refusal> {
    said.counted("block", i64::from(place.block))?;
    said.counted("page", i64::from(place.page))
}

fn put_device_call(said: &mut Reported, call: NandCall) -> Result<(), Refusal> {
    match call {
        NandCall::Read(place) => {
            said.words("by read")?;
            put_place(said, place)
        }
        NandCall::Program(place, _, bytes) => {
            said.words("by program")?;
            put_place(said, place)?;
            said.holds(&bytes)
        }
        NandCall::EraseSlot(block) => said.counted("by erase block", i64::from(block)),
    }
}

/// The act of the next slot, and the call of the device by which it does that.
pub(crate) fn next<N: Nand>(
    die: &mut DieCore<N>,
    alloc: Global,
    said: &mut Reported,
) -> Result<(), Refusal> {
    let next = die.next_call(alloc)?;
    match next.ran {
        Some((number, act)) => {
            said.number(i64::from(number.0))?;
            put_next_act(said, act)?;
        }
        None => said.words("idle")?,
    }
    match next.call {
        Some(call) => put_device_call(said, call),
        None => Ok(()),
    }
}
