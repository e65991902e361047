//! Lives of a die on its part, with mounts between them.

use crate::pages::{Asked, Pages};
use crate::parts::{LOGICAL, NUMBERED, bad_blocks, blank, plan, tear};
use crate::wrongs::Wrong;
use device_mount::mount;
use labelled_die::BesideNand;
use labelled_spares::LabelledSpares;
use slot_core::DieCore;
use slot_types::{Act, Op, OpList, PageData, Refusal, TaskNo};
use spare_blocks::{Failures, SpareBlocks, WearingMemory};
use std::alloc::Global;

/// A die on its part.
type Die = DieCore<BesideNand<LabelledSpares<WearingMemory>>>;

/// What is left of a life: the part, and the blocks that were bad.
#[derive(Drop)]
pub(crate) struct Left {
    pub(crate) part: WearingMemory,
    bad: Vec<u32>,
}

/// A part on which nothing was ever written, of which no block is known to be bad.
pub(crate) fn new_part(alloc: Global) -> Result<Left, Wrong> {
    Ok(Left {
        part: blank(alloc)?,
        bad: Vec::new(alloc),
    })
}

/// What is left of a device whose power went, or that is given up.
fn left_of(alloc: Global, device: SpareBlocks<WearingMemory>) -> Result<Left, Wrong> {
    let bad = bad_blocks(alloc, &device)?;
    Ok(Left {
        part: device.into_part(),
        bad,
    })
}

/// A die, or what is left where the power went before it began.
#[derive(Drop)]
enum Begun {
    Die(Box<Die>),
    Cut(Left),
}

/// The die that begins on a part once its power has come, and whose calls fail so then. The power may go before it begins,
/// where that is expected.
fn begin(
    alloc: Global,
    left: Left,
    failures: Failures,
    pattern: u32,
    may_be_cut: bool,
) -> Result<Begun, Wrong> {
    let Left { part, bad } = left;
    let mut part = part;
    tear(&mut part, pattern);
    part.power_comes(failures);
    let device = match LabelledSpares::power_up(alloc, part, NUMBERED, bad.as_slice()) {
        Ok(device) => device,
        Err(no) => {
            return if may_be_cut && no.refusal == Refusal::DeviceFault {
                Ok(Begun::Cut(Left { part: no.part, bad }))
            } else {
                Err(Wrong::Table(no.refusal))
            };
        }
    };
    match mount(alloc, plan(alloc)?, device) {
        Ok(die) => Ok(Begun::Die(Box::new(alloc, die)?)),
        Err(no) if may_be_cut => Ok(Begun::Cut(left_of(alloc, no.part.into_spares())?)),
        Err(no) => Err(Wrong::Mount(no.refusal)),
    }
}

/// A job is submitted, and a collection.
fn ask(die: &mut Die, alloc: Global, ops: OpList) -> Result<bool, Wrong> {
    let now = die.now();
    let due = now.saturating_add(20);
    match die.collect(alloc, 0, TaskNo(0), now, due) {
        Ok(_) => {}
        Err(Refusal::CollectorBusy) => {}
        Err(refusal) => return Err(Wrong::Refused(refusal)),
    }
    match die.submit(alloc, 0, TaskNo(0), now, due, ops) {
        Ok(_) => Ok(true),
        Err(Refusal::NoTokens { .. }) => Ok(false),
        Err(refusal) => Err(Wrong::Refused(refusal)),
    }
}

/// The present slot: its act, or none, or that the power went.
fn carry(die: &mut Die, alloc: Global) -> Result<Option<Act>, Refusal> {
    match die.slot(alloc, 0) {
        Ok(reply) => Ok(reply.ran.map(|(_, act)| act)),
        Err(refusal) => Err(refusal),
    }
}

/// Each page is read: the power may go meanwhile. Says whether it stayed.
fn finds_all(die: &mut Die, alloc: Global, pages: &mut Pages) -> Result<bool, Wrong> {
    let mut ops = OpList::new(alloc);
    for page in 0..LOGICAL {
        ops.push(Op::Read(page))?;
    }
    let now = die.now();
    die.submit(alloc, 0, TaskNo(0), now, now.saturating_add(20), ops)?;
    for _ in 0..LOGICAL {
        match carry(die, alloc) {
            Ok(Some(act)) => pages.find(act)?,
            Ok(None) => {}
            Err(_) => return Ok(false),
        }
    }
    pages.all_found();
    Ok(true)
}

/// One write, with bytes of its own.
fn asked_of(number: u32) -> Asked {
    let low = (number % 256) as u8;
    let high = (number / 256 % 256) as u8;
    let mut bytes = [low; 16];
    bytes[0] = high;
    Asked {
        page: number.wrapping_mul(5) % LOGICAL,
        bytes: PageData(bytes),
    }
}

/// So many writes, unless the power goes before. Says whether it stayed.
fn writes(
    die: &mut Die,
    alloc: Global,
    pages: &mut Pages,
    first: u32,
    count: u32,
) -> Result<bool, Wrong> {
    for number in first..first.saturating_add(count) {
        let asked = asked_of(number);
        let mut ops = OpList::new(alloc);
        ops.push(Op::Write(asked.page, asked.bytes))?;
        ops.push(Op::Read(asked.page))?;
        if ask(die, alloc, ops)? {
            pages.ask(asked);
        }
        for _ in 0..10 {
            match carry(die, alloc) {
                Ok(Some(act)) => pages.take(act)?,
                Ok(None) => {}
                Err(_) => return Ok(false),
            }
        }
    }
    Ok(true)
}

/// A life: each page is found, and so many are written. What is left, and whether the power stayed.
pub(crate) fn life(
    alloc: Global,
    left: Left,
    failures: Failures,
    pattern: u32,
    pages: &mut Pages,
    first: u32,
    count: u32,
    may_be_cut: bool,
) -> Result<(Left, bool), Wrong> {
    let mut die = match begin(alloc, left, failures, pattern, may_be_cut)? {
        Begun::Die(die) => die,
        Begun::Cut(left) => return Ok((left, false)),
    };
    let stayed = finds_all(&mut *die, alloc, pages)?
        && writes(&mut *die, alloc, pages, first, count)?;
    if !stayed && !may_be_cut {
        return Err(Wrong::Slot);
    }
    let device = Box::into_inner(die).into_device().into_part().into_spares();
    Ok((left_of(alloc, device)?, stayed))
}
