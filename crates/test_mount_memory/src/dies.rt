//! What a die does on its part: writes, and reads of all pages.

use crate::parts::LOGICAL;
use crate::wrongs::Wrong;
use flash_die::Nand;
use slot_core::DieCore;
use slot_types::{Act, Op, OpList, PageData, Refusal, TaskNo};
use std::alloc::Global;

/// By page the bytes of its last finished write; blank where there is none.
pub(crate) fn blank_pages(alloc: Global) -> Result<Vec<PageData>, Wrong> {
    Ok(vec![in alloc; PageData::BLANK; LOGICAL as usize]?)
}

/// A job of one operation, and a collection. A job without tokens doesn't come.
fn ask<N: Nand>(die: &mut DieCore<N>, alloc: Global, op: Op) -> Result<(), Wrong> {
    let now = die.now();
    let due = now.saturating_add(20);
    match die.collect(alloc, 0, TaskNo(0), now, due) {
        Ok(_) => {}
        Err(Refusal::CollectorBusy) => {}
        Err(refusal) => return Err(refusal.into()),
    }
    let mut ops = OpList::new(alloc);
    ops.push(op)?;
    match die.submit(alloc, 0, TaskNo(0), now, due, ops) {
        Ok(_) => Ok(()),
        Err(Refusal::NoTokens { .. }) => Ok(()),
        Err(refusal) => Err(refusal.into()),
    }
}

/// An act was carried out: a write is the last of its page, and a read has to give that.
fn take(act: Act, pages: &mut [PageData]) -> Result<(), Wrong> {
    match act {
        Act::Write { page, bytes } => {
            if let Some(last) = pages.get_mut(page as usize) {
                *last = bytes;
            }
            Ok(())
        }
        Act::Read { page, bytes } if pages.get(page as usize) != Some(&bytes) => {
            Err(Wrong::Read { page })
        }
        _ => Ok(()),
    }
}

/// So many slots.
fn carry<N: Nand>(
    die: &mut DieCore<N>,
    alloc: Global,
    pages: &mut [PageData],
    slots: u32,
) -> Result<(), Wrong> {
    for _ in 0..slots {
        if let Some((_, act)) = die.slot(alloc, 0)?.ran {
            take(act, pages)?;
        }
    }
    Ok(())
}

/// So many writes, from this one on, each with bytes of its own.
pub(crate) fn writes<N: Nand>(
    die: &mut DieCore<N>,
    alloc: Global,
    pages: &mut [PageData],
    count: u32,
) -> Result<(), Wrong> {
    for number in 0..count {
        let bytes = PageData([(number % 256) as u8; 16]);
        ask(
            die,
            alloc,
            Op::Write(number.wrapping_mul(5) % LOGICAL, bytes),
        )?;
        carry(die, alloc, pages, 10)?;
    }
    Ok(())
}

/// Each page is read, and has its last finished write.
pub(crate) fn reads_all<N: Nand>(
    die: &mut DieCore<N>,
    alloc: Global,
    pages: &mut [PageData],
) -> Result<(), Wrong> {
    for page in 0..LOGICAL {
        ask(die, alloc, Op::Read(page))?;
        carry(die, alloc, pages, 10)?;
    }
    Ok(())
}
