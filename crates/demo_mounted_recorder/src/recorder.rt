//! The recorder's work on a die: all pages are read once, and then its tasks write.

use crate::plan::{CONTROL, LOGGER, PAGES, READER, Writer};
use crate::samples::{number_in, sample};
use crate::stops::Stop;
use crate::witness::Witness;
use flash_die::Nand;
use ongoing_die::{OngoingDie, Taken};
use slot_types::{Act, JobNo, Op, PageData, SlotReply};
use std::alloc::Global;

/// The recorder calls the die by this number.
const CALLER: u32 = 0;

/// No look at the pages takes more slots: the reader may ask for one once in as many.
const LOOK: u32 = 128;

/// Carries out a slot.
fn carry<N: Nand>(alloc: Global, die: &mut OngoingDie<N>) -> Result<SlotReply, Stop> {
    match die.slot(alloc, CALLER) {
        Ok(reply) => Ok(reply),
        Err(stop) => Err(Stop::NoSlot(stop)),
    }
}

/// A read of each page.
fn reads() -> [Op; PAGES] {
    let mut ops = [Op::Read(0); PAGES];
    for page in 0..PAGES {
        ops[page] = Op::Read(page as u32);
    }
    ops
}

/// The number of a job that enters the present life.
fn entered(taken: Taken) -> Option<JobNo> {
    match taken {
        Taken::Enters { first, .. } => Some(first),
        Taken::Waits { .. } => None,
    }
}

/// Asks for a read of each page. It answers the number of the job, which enters: a life has just begun.
fn ask_reads<N: Nand>(alloc: Global, die: &mut OngoingDie<N>) -> Result<Option<JobNo>, Stop> {
    let ops = reads();
    match die.ask(alloc, CALLER, READER, &ops) {
        Ok(taken) => Ok(entered(taken)),
        Err(stop) => Err(Stop::NotAsked(stop)),
    }
}

/// The numbers of the writes that the pages have.
fn numbers_in(pages: &[PageData; PAGES]) -> Result<[u64; PAGES], Stop> {
    let mut numbers = [0; PAGES];
    for page in 0..PAGES {
        match number_in(page as u32, pages[page]) {
            Some(number) => numbers[page] = number,
            None => return Err(Stop::Strange { page: page as u32 }),
        }
    }
    Ok(numbers)
}

/// Reads all pages, at the beginning of a life. It answers the number of each page's write, 0 of one that was never written.
pub(crate) fn look<N: Nand>(alloc: Global, die: &mut OngoingDie<N>) -> Result<[u64; PAGES], Stop> {
    let job = ask_reads(alloc, die)?;
    let mut pages = [PageData::BLANK; PAGES];
    for _ in 0..LOOK {
        let reply = carry(alloc, die)?;
        if let Some((_, Act::Read { page, bytes })) = reply.ran {
            if let Some(read) = pages.get_mut(page as usize) {
                *read = bytes;
            }
        }
        if reply.finished.is_some() && reply.finished == job {
            return numbers_in(&pages);
        }
    }
    Err(Stop::NotRead)
}

/// A task that writes, and its writes in this life.
#[derive(Clone, Copy, Drop)]
pub(crate) struct Turn {
    writer: Writer,
    /// The number of its next write.
    next: u64,
    /// From which slot on it may ask again; the write that it asked for last is due there.
    from: u64,
    /// A write was asked for, and it wasn't looked at yet whether it is done in time.
    is_open: bool,
    /// How many of its writes were due, and how many of these weren't done.
    pub(crate) due: u64,
    pub(crate) late: u64,
}

impl Turn {
    /// It goes on behind the greatest number that one of its pages has.
    fn new(writer: Writer, witness: &Witness) -> Turn {
        let mut last = 0;
        for (page, known) in witness.pages.iter().enumerate() {
            if writer.has(page as u32) && known.done > last {
                last = known.done;
            }
        }
        Turn {
            writer,
            next: last.saturating_add(1),
            from: 0,
            is_open: false,
            due: 0,
            late: 0,
        }
    }

    /// Once the write is due that was asked for last, it has to be done.
    fn settle(&mut self, slot: u64, witness: &Witness) {
        if !self.is_open || slot < self.from {
            return;
        }
        self.is_open = false;
        self.due = self.due.saturating_add(1);
        if witness.is_open(self.writer.page(self.next.saturating_sub(1))) {
            self.late = self.late.saturating_add(1);
        }
    }

    /// Asks for the next write, once it may.
    fn ask<N: Nand>(
        &mut self,
        alloc: Global,
        die: &mut OngoingDie<N>,
        witness: &mut Witness,
    ) -> Result<(), Stop> {
        let slot = die.clock();
        if slot < self.from {
            return Ok(());
        }
        self.settle(slot, witness);
        let page = self.writer.page(self.next);
        let ops = [Op::Write(page, sample(page, self.next))];
        let release = match die.ask(alloc, CALLER, self.writer.task, &ops) {
            Ok(Taken::Enters { release, .. }) => release,
            Ok(Taken::Waits { release, .. }) => release,
            Err(stop) => return Err(Stop::NotAsked(stop)),
        };
        witness.ask(page, self.next);
        self.next = self.next.saturating_add(1);
        self.from = release.saturating_add(u64::from(self.writer.terms.period));
        self.is_open = true;
        Ok(())
    }
}

/// The tasks that write in a life, and what is known of the pages.
#[derive(Clone, Copy, Drop)]
pub(crate) struct Recorder {
    pub(crate) witness: Witness,
    pub(crate) control: Turn,
    pub(crate) logger: Turn,
}

impl Recorder {
    /// What is known is what the pages had at the beginning of the life.
    pub(crate) fn new(witness: Witness) -> Recorder {
        Recorder {
            witness,
            control: Turn::new(CONTROL, &witness),
            logger: Turn::new(LOGGER, &witness),
        }
    }

    /// Each task asks that may.
    pub(crate) fn ask<N: Nand>(
        &mut self,
        alloc: Global,
        die: &mut OngoingDie<N>,
    ) -> Result<(), Stop> {
        self.control.ask(alloc, die, &mut self.witness)?;
        self.logger.ask(alloc, die, &mut self.witness)
    }

    /// Carries out a slot, and notes the write that was done in it.
    pub(crate) fn carry<N: Nand>(
        &mut self,
        alloc: Global,
        die: &mut OngoingDie<N>,
    ) -> Result<(), Stop> {
        let reply = carry(alloc, die)?;
        if let Some((_, Act::Write { page, .. })) = reply.ran {
            self.witness.finish(page);
        }
        Ok(())
    }

    /// What is due by now is looked at.
    pub(crate) fn settle<N: Nand>(&mut self, die: &OngoingDie<N>) {
        let slot = die.clock();
        self.control.settle(slot, &self.witness);
        self.logger.settle(slot, &self.witness);
    }
}
