//! The dies that are played: one that takes what it is asked, one that keeps its plan, and one that goes on by itself.

ghost use Rattle.flash_die.specs.Flash.{IsFresh};
ghost use Rattle.spare_blocks.specs.Spares.{spared_blocks};

use crate::parts::{Device, ERASE_SLOTS, PAGES};
use crate::wrongs::Wrong;
use demand_rules::{TaskTerms, Terms, TermsList};
use ongoing_die::{OngoingDie, OngoingRefusal};
use planned_die::PlannedDie;
use slot_core::DieCore;
use slot_types::{Act, Caps, DiePlan, Op, PageData, Place, Refusal, Shape, SlotReply, TaskNo};
use std::alloc::Global;

pub(crate) const BLOCKS: u32 = 10;

pub(crate) const LOGICAL: u32 = 12;

/// A kind of die, on a device with spare blocks.
pub(crate) trait Kind: Drop {
    fn device(&self) -> &Device;

    fn place(&self, page: u32) -> Option<Place>;

    /// Asks for what the die does next: the write of a page, and reads of it and of another one. An ask for which there
    /// are no tokens, or that the plan doesn't allow, is left out.
    fn ask(&mut self, alloc: Global, number: u32) -> Result<(), Wrong>;

    /// Carries out the present slot.
    fn carry(&mut self, alloc: Global) -> Result<Option<Act>, Wrong>;

    fn into_device(self) -> Device;
}

/// What an ask of this number asks for. The pages come round, each with bytes of its own.
fn ops_of(number: u32) -> [Op; 3] {
    let page = number.wrapping_mul(5) % LOGICAL;
    let low = (number % 256) as u8;
    let high = (number / 256 % 256) as u8;
    let mut bytes = [low; 16];
    bytes[0] = high;
    [
        Op::Write(page, PageData(bytes)),
        Op::Read(page),
        Op::Read(number.wrapping_mul(7) % LOGICAL),
    ]
}

fn act_of(reply: SlotReply) -> Option<Act> {
    match reply.ran {
        Some((_, act)) => Some(act),
        None => None,
    }
}

/// A plan of one task.
fn plan(alloc: Global) -> Result<DiePlan, Wrong> {
    let mut caps = Caps::new(alloc);
    caps.push(8)?;
    Ok(DiePlan {
        shape: Shape {
            blocks: BLOCKS,
            pages: PAGES,
            erase_slots: ERASE_SLOTS,
        },
        logical: LOGICAL,
        alpha: 2,
        caps,
        times: None,
    })
}

/// In 20 slots three operations, of them one write, and a collection.
fn terms(alloc: Global) -> Result<Terms, Wrong> {
    let task = TaskTerms {
        period: 20,
        deadline: 16,
        held: 16,
        work: 3,
        writes: 1,
        collect_period: 20,
        collect_deadline: 20,
    };
    Ok(Terms {
        tasks: TermsList::from_vec(Vec::from_slice(alloc, &[task])?),
    })
}

/// A die that takes what it is asked.
pub(crate) fn core_on(alloc: Global, device: Device) -> Result<DieCore<Device>, Wrong>
    requires fresh { IsFresh device.shape (spared_blocks (λ p. p.blocks) device) device.failures }
{
    Ok(DieCore::new(alloc, plan(alloc)?, device)?)
}

/// A die that keeps its plan, for a life of 6,000 slots.
pub(crate) fn planned_on(alloc: Global, device: Device) -> Result<PlannedDie<Device>, Wrong>
    requires fresh { IsFresh device.shape (spared_blocks (λ p. p.blocks) device) device.failures }
{
    let of_die = plan(alloc)?;
    let terms = terms(alloc)?;
    Ok(PlannedDie::new(alloc, of_die, terms, 6000, device)?)
}

/// A die that goes on by itself, in lives of 200 slots.
pub(crate) fn ongoing_on(alloc: Global, device: Device) -> Result<OngoingDie<Device>, Wrong>
    requires fresh { IsFresh device.shape (spared_blocks (λ p. p.blocks) device) device.failures }
{
    let of_die = plan(alloc)?;
    let terms = terms(alloc)?;
    match OngoingDie::new(alloc, of_die, terms, 200, device) {
        Ok(die) => Ok(die),
        Err(OngoingRefusal::Plan(refusal)) => Err(Wrong::Plan(refusal)),
        Err(OngoingRefusal::ShortLife { .. }) => Err(Wrong::ShortLife),
    }
}

/// Whether a refusal says no more than that tokens are missing, or that a collection runs yet.
fn is_early(refusal: Refusal) -> bool {
    matches!(refusal, Refusal::NoTokens { .. } | Refusal::CollectorBusy)
}

/// An ask of a die that takes what it is asked: a collection, and a job.
fn ask_core(die: &mut DieCore<Device>, alloc: Global, number: u32) -> Result<(), Refusal> {
    let now = die.now();
    let due = now.saturating_add(20);
    match die.collect(alloc, 0, TaskNo(0), now, due) {
        Err(refusal) if !is_early(refusal) => return Err(refusal),
        _ => {}
    }
    match die.submit_lent(alloc, 0, TaskNo(0), now, due, &ops_of(number)) {
        Err(refusal) if !is_early(refusal) => Err(refusal),
        _ => Ok(()),
    }
}

impl Kind for DieCore<Device> {
    fn device(&self) -> &Device {
        self.device()
    }

    fn place(&self, page: u32) -> Option<Place> {
        self.place(page)
    }

    fn ask(&mut self, alloc: Global, number: u32) -> Result<(), Wrong> {
        Ok(ask_core(self, alloc, number)?)
    }

    fn carry(&mut self, alloc: Global) -> Result<Option<Act>, Wrong> {
        Ok(act_of(self.slot(alloc, 0)?))
    }

    fn into_device(self) -> Device {
        self.into_device()
    }
}

impl Kind for PlannedDie<Device> {
    fn device(&self) -> &Device {
        self.core().device()
    }

    fn place(&self, page: u32) -> Option<Place> {
        self.core().place(page)
    }

    fn ask(&mut self, alloc: Global, number: u32) -> Result<(), Wrong> {
        let _ = self.ask(alloc, 0, TaskNo(0), &ops_of(number));
        Ok(())
    }

    fn carry(&mut self, alloc: Global) -> Result<Option<Act>, Wrong> {
        Ok(act_of(self.slot(alloc, 0)?))
    }

    fn into_device(self) -> Device {
        self.into_device()
    }
}

impl Kind for OngoingDie<Device> {
    fn device(&self) -> &Device {
        self.die().core().device()
    }

    fn place(&self, page: u32) -> Option<Place> {
        self.die().core().place(page)
    }

    fn ask(&mut self, alloc: Global, number: u32) -> Result<(), Wrong> {
        let _ = self.ask(alloc, 0, TaskNo(0), &ops_of(number));
        Ok(())
    }

    fn carry(&mut self, alloc: Global) -> Result<Option<Act>, Wrong> {
        match self.slot(alloc, 0) {
            Ok(reply) => Ok(act_of(reply)),
            Err(_) => Err(Wrong::Unanswered),
        }
    }

    fn into_device(self) -> Device {
        self.into_device()
    }
}
