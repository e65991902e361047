//! A load that is run by a policy.

use crate::cells::Cells;
use crate::collection::{Collection, Step};
use crate::lists::{add_one, at, set};
use crate::load::{Load, PlainJob};
use crate::policy::{Collecting, Order, Policy};
use slot_types::{DiePlan, Op};
use std::alloc::{AllocError, Global};
use std::cmp::Reverse;
use std::collections::BinaryHeap;

/// Why a play ended early: memory was refused; or the layer is wrong, which its checks have found.
#[derive(Clone, Copy, PartialEq, Eq, Debug, Drop)]
pub enum Fault {
    NoMemory,
    /// A read of this page gave another write than its last one.
    WrongRead { slot: u32, page: u32 },
    /// A write found no free page, though pages are kept for it.
    NoPage { slot: u32 },
    /// At the end this page doesn't hold its last write.
    Lost { page: u32 },
}

impl From<AllocError> for Fault {
    fn from(_error: AllocError) -> Fault {
        Fault::NoMemory
    }
}

/// How many wholly free blocks a layer wants, the open one not counted.
#[derive(Clone, Copy, PartialEq, Eq, Debug, Drop)]
pub struct Marks {
    /// With fewer than these a collection has to begin.
    pub low: usize,
    /// With fewer than these an idle slot begins one.
    pub pool: usize,
}

/// What came of a play.
#[derive(Drop)]
pub struct Played {
    /// By job its completion, or none where it isn't done.
    pub completions: Vec<Option<u32>>,
    /// What follows is counted from the first measured slot on: the pages that jobs and that collections programmed.
    pub written: u32,
    pub copied: u32,
    /// Erases that ended.
    pub erases: u32,
    /// Slots that carried nothing.
    pub idle: u32,
}

/// What a policy compares of a waiting job: its own measure, then the release where that counts, then the row.
type Key = (u32, u32, u32);

/// What waits, least key first. The last part of a key is the place of the job.
type Waiting = BinaryHeap<Reverse<Key>>;

// A die in the middle of a play.
#[derive(Drop)]
struct Layer<'a> {
    load: &'a Load,
    policy: Policy,
    marks: Marks,
    pages: usize,
    erase_slots: u32,
    /// The first slot that is counted.
    from: u32,
    cells: Cells,
    /// By page its last write, or 0.
    last: Vec<u32>,
    /// How many writes were carried out.
    writes: u32,
    /// By job how many operations were carried out.
    carried: Vec<u32>,
    spans: Vec<u32>,
    waiting: Waiting,
    /// The releases and the places of all jobs, in the order in which they come.
    arrivals: Vec<(u32, u32)>,
    /// How many of these have come.
    come: usize,
    collection: Option<Collection>,
    played: Played,
}

// A head: the job's place, the job, and its next operation.
#[derive(Clone, Copy)]
struct Head {
    place: u32,
    op: Op,
}

impl<'a> Layer<'a> {
    fn key(&self, job: &PlainJob, place: u32) -> Key {
        let span = at(self.spans.as_slice(), job.task as usize, u32::MAX);
        match self.policy.order() {
            Order::Arrival => (0, job.release, place),
            Order::RateMonotonic => (span, job.release, place),
            Order::EarliestDeadline => (job.due, 0, place),
        }
    }

    // The key of the next job that comes, if it is released by a slot.
    fn arrival(&self, now: u32) -> Option<Key> {
        let (release, place) = self.arrivals.get(self.come)?;
        if *release > now {
            return None;
        }
        let job = self.load.jobs().get(*place as usize)?;
        Some(self.key(job, *place))
    }

    // Takes in what is released by a slot.
    fn take_in(&mut self, now: u32) -> Result<(), Fault> {
        for come in self.come..self.arrivals.len() {
            let Some(key) = self.arrival(now) else {
                break;
            };
            match self.waiting.push(Reverse(key)) {
                Ok(()) => {}
                Err(_) => return Err(Fault::NoMemory),
            }
            self.come = come.saturating_add(1);
        }
        Ok(())
    }

    fn head(&self) -> Option<Head> {
        let Some(Reverse((_, _, place))) = self.waiting.peek() else {
            return None;
        };
        let place = *place;
        let job = self.load.jobs().get(place as usize)?;
        let op = self
            .load
            .op(job, at(self.carried.as_slice(), place as usize, 0))?;
        Some(Head { place, op })
    }

    // How many free pages are kept for the collection that runs, or the next one.
    fn kept(&self) -> usize {
        match &self.collection {
            Some(collection) => collection.needs(&self.cells),
            None => self.pages.saturating_sub(1),
        }
    }

    // Whether the head may be carried out: a write has to find a page beyond those that are kept.
    fn may_go(&self, head: Option<Head>) -> bool {
        match head {
            None => false,
            Some(head) => match head.op {
                Op::Write(_, _) => self.cells.free() > self.kept(),
                _ => true,
            },
        }
    }

    fn is_short(&self) -> bool {
        self.cells.wholly_free() < self.marks.low
    }

    // Begins a collection where the policy wants one, no other runs, and there is a victim.
    fn begin(&mut self, head: Option<Head>, may_go: bool) {
        let idle = head.is_none() && self.cells.wholly_free() < self.marks.pool;
        let wanted = match self.policy.collecting() {
            Collecting::OnDemand => self.is_short(),
            Collecting::Background => self.is_short() || idle,
            Collecting::Stepwise => idle || (head.is_some() && !may_go),
        };
        if wanted && self.collection.is_none() {
            self.collection = match self.cells.victim() {
                Some(victim) => Some(Collection::new(victim)),
                None => None,
            };
        }
    }

    // Whether the slot is the collection's.
    fn collects(&mut self, may_go: bool) -> bool {
        let short = self.is_short();
        let Some(collection) = &mut self.collection else {
            return false;
        };
        match self.policy.collecting() {
            Collecting::OnDemand => true,
            Collecting::Background => {
                collection.urgent = collection.urgent || short;
                !may_go || (collection.urgent && collection.copies(&self.cells))
            }
            Collecting::Stepwise => !may_go,
        }
    }

    // Carries out a slot of the collection.
    fn collect(&mut self, now: u32) {
        let Some(collection) = &mut self.collection else {
            return;
        };
        let step = collection.step(&mut self.cells, self.pages, self.erase_slots);
        if step == Step::Erased {
            self.collection = None;
        }
        if now < self.from {
            return;
        }
        match step {
            Step::On => {}
            Step::Copied => self.played.copied = self.played.copied.saturating_add(1),
            Step::Erased => self.played.erases = self.played.erases.saturating_add(1),
        }
    }

    fn read(&self, now: u32, page: u32) -> Result<(), Fault> {
        if self.cells.write_of(page) != at(self.last.as_slice(), page as usize, 0) {
            return Err(Fault::WrongRead { slot: now, page });
        }
        Ok(())
    }

    fn write(&mut self, now: u32, page: u32) -> Result<(), Fault> {
        if !self.put(page) {
            return Err(Fault::NoPage { slot: now });
        }
        if now >= self.from {
            self.played.written = self.played.written.saturating_add(1);
        }
        Ok(())
    }

    // Programs a page with a write of its own. Answers false where no cell is free.
    fn put(&mut self, page: u32) -> bool {
        self.writes = self.writes.saturating_add(1);
        if !self.cells.program(page, self.writes) {
            return false;
        }
        set(self.last.as_mut_slice(), page as usize, self.writes);
        true
    }

    // These pages stand on the die from the beginning on, one after the other.
    fn begin_with(&mut self, standing: &[u32]) -> Result<(), Fault> {
        for page in standing {
            if !self.put(*page) {
                return Err(Fault::NoPage { slot: 0 });
            }
        }
        Ok(())
    }

    fn trim(&mut self, page: u32) {
        self.cells.unbind(page);
        set(self.last.as_mut_slice(), page as usize, 0);
    }

    // Carries out the head's next operation.
    fn carry(&mut self, now: u32, head: Head) -> Result<(), Fault> {
        match head.op {
            Op::Read(page) => self.read(now, page)?,
            Op::Write(page, _) => self.write(now, page)?,
            Op::Trim(page) => self.trim(page),
        }
        add_one(self.carried.as_mut_slice(), head.place as usize);
        self.end(now, head.place);
        Ok(())
    }

    // Ends the head's job, if it has no further operation.
    fn end(&mut self, now: u32, place: u32) {
        if self.head().is_some() {
            return;
        }
        let _ = self.waiting.pop();
        let place = place as usize;
        if place < self.played.completions.len() {
            self.played.completions[place] = Some(now.saturating_add(1));
        }
    }

    fn slot(&mut self, now: u32) -> Result<(), Fault> {
        self.take_in(now)?;
        let head = self.head();
        let may_go = self.may_go(head);
        self.begin(head, may_go);
        if self.collects(may_go) {
            self.collect(now);
            return Ok(());
        }
        match head {
            Some(head) if may_go => self.carry(now, head),
            _ => {
                if now >= self.from {
                    self.played.idle = self.played.idle.saturating_add(1);
                }
                Ok(())
            }
        }
    }

    // Each page holds its last write.
    fn audit(&self) -> Result<(), Fault> {
        let pages = u32::try_from(self.last.len()).unwrap_or(u32::MAX);
        for page in 0..pages {
            if self.cells.write_of(page) != at(self.last.as_slice(), page as usize, 0) {
                return Err(Fault::Lost { page });
            }
        }
        Ok(())
    }
}

fn layer_of<'a>(
    alloc: Global,
    plan: &DiePlan,
    load: &'a Load,
    policy: Policy,
    marks: Marks,
    from: u32,
) -> Result<Layer<'a>, Fault> {
    let jobs = load.jobs().len();
    Ok(Layer {
        load,
        policy,
        marks,
        pages: plan.shape.pages as usize,
        erase_slots: plan.shape.erase_slots,
        from,
        cells: Cells::new(alloc, plan.shape, plan.logical)?,
        last: vec![in alloc; 0u32; plan.logical as usize]?,
        writes: 0,
        carried: vec![in alloc; 0u32; jobs]?,
        spans: load.spans(alloc, plan.caps.len())?,
        waiting: BinaryHeap::new(alloc),
        arrivals: load.arrivals(alloc)?,
        come: 0,
        collection: None,
        played: Played {
            completions: vec![in alloc; None; jobs]?,
            written: 0,
            copied: 0,
            erases: 0,
            idle: 0,
        },
    })
}

/// Runs the jobs of a load by a policy for `slots` slots, on a die of this plan, of which only the shape, the number of
/// logical pages and that of the tasks count. It begins with these pages, which lie one after the other in the first
/// blocks, so that no cell is stale; the die is fresh where there are none. Slots are counted from `from` on.
pub fn play(
    alloc: Global,
    plan: &DiePlan,
    standing: &[u32],
    load: &Load,
    policy: Policy,
    marks: Marks,
    slots: u32,
    from: u32,
) -> Result<Played, Fault> {
    let mut layer = layer_of(alloc, plan, load, policy, marks, from)?;
    layer.begin_with(standing)?;
    for now in 0..slots {
        layer.slot(now)?;
    }
    layer.audit()?;
    let Layer { played, .. } = layer;
    Ok(played)
}
