//! What a datasheet says.

ghost use Rattle.std.specs.Prelude.{◌≡◌, ℕ, ◌+◌, ◌*◌, ◌≤◌, IfSome, IsTrue, None, All};
ghost use Rattle.demand_rules.specs.declared.terms.TaskTerms.{TaskTerms};
ghost use Rattle.flashplan_fit.specs.Fits.{AllowsErases, DoesWork, HoldsCommands, IsAskedSlot, IsDue, IsPaced, IsPlain, Serves, erasing};

use crate::faults::WholeErase;
use slot_types::{Items, MAX_ERASE_SLOTS, MAX_SLOT};

/// A rate in millionths of a page a second, times a time in microseconds, makes a page where it comes to this.
const PAGE_SECOND: u64 = 1_000_000_000_000;

/// The most pages of a job.
const MOST_PAGES: u32 = 64;

/// How many erases a part suspends at a time.
#[derive(Clone, Copy, Drop)]
pub enum Suspends {
    /// Any number of them, each of another block.
    Any,
    One,
    No,
}

/// A part, and how many of its pages are to be held. Times are in microseconds.
#[derive(Clone, Copy, Drop)]
pub struct Part {
    pub read_us: u32,
    /// The longest that a program may take.
    pub program_us: u32,
    /// How long most programs take. No plan rests on it.
    pub program_typical_us: Option<u32>,
    pub erase_us: u32,
    pub suspends: Suspends,
    /// To suspend an erase, and to resume it.
    pub suspend_us: u32,
    pub resume_us: u32,
    /// To move a page between the part and its driver, beside each read and each program.
    pub transfer_us: u32,
    /// What is left free of each slot, for what the driver does in it and for how late it may begin.
    pub margin_us: u32,
    /// How long a slot is to be; where nothing is said, that is chosen.
    pub slot_us: Option<u32>,
    /// How often a block may be erased. No plan rests on it.
    pub endurance: Option<u32>,
    pub blocks: u32,
    pub pages: u32,
    /// How many logical pages the die is to hold.
    pub logical: u32,
}

impl Part {
    /// Whether the part allows erases of `erase_slots` slots, where `tasks` tasks collect.
    pub fn allows_erases(&self, erase_slots: u32, tasks: usize) -> bool
        ensures { IsTrue result → AllowsErases self.now.suspends erase_slots tasks }
    {
        match self.suspends {
            Suspends::Any => true,
            Suspends::One => tasks <= 1 || erase_slots <= 1,
            Suspends::No => erase_slots <= 1,
        }
    }

    /// Whether a slot of a length is as long as it is to be.
    pub fn allows_slot(&self, slot_us: u32) -> bool
        ensures { IsTrue result → IsAskedSlot self.now.slot_us slot_us }
    {
        match self.slot_us {
            Some(asked_us) => slot_us == asked_us,
            None => true,
        }
    }

    /// The shortest slot that holds each single command, and `erase_us` of an erase with suspending and resuming it.
    fn shortest_slot(&self, erase_us: u32) -> u32 {
        let command = self
            .read_us
            .max(self.program_us)
            .saturating_add(self.transfer_us);
        let erase = self
            .suspend_us
            .saturating_add(self.resume_us)
            .saturating_add(erase_us);
        command.max(erase).saturating_add(self.margin_us)
    }

    /// What a slot of a length has of an erase, in microseconds.
    pub fn erasing(&self, slot_us: u32) -> u32
        ensures { result ≡ erasing self.now slot_us }
    {
        slot_us
            .saturating_sub(self.suspend_us)
            .saturating_sub(self.resume_us)
            .saturating_sub(self.margin_us)
    }

    /// Whether a slot of `slot_us` microseconds holds a command of `command_us`, its transfer and the margin.
    pub fn holds(&self, slot_us: u32, command_us: u32) -> bool
        ensures { IsTrue result → command_us + self.now.transfer_us + self.now.margin_us ≤ slot_us }
    {
        u64::from(command_us) + u64::from(self.transfer_us) + u64::from(self.margin_us)
            <= u64::from(slot_us)
    }

    /// How many slots of a length an erase takes; none where such a slot doesn't hold each command.
    pub fn erase_slots(&self, slot_us: u32) -> Option<u32>
        ensures { IfSome result (HoldsCommands self.now slot_us) }
    {
        let erasing = self.erasing(slot_us);
        if !self.holds(slot_us, self.read_us)
            || !self.holds(slot_us, self.program_us)
            || erasing == 0
        {
            return None;
        }
        Some(self.erase_us.div_ceil(erasing).max(1))
    }
}

/// What a task asks for.
#[derive(Clone, Copy, Drop)]
pub enum Asked {
    /// A job of `reads` reads and `writes` writes, at most once in `period_us` microseconds.
    Periodic {
        period_us: u32,
        reads: u8,
        writes: u8,
    },
    /// `pages` writes, at most once in `every_us` microseconds, in any number of jobs.
    Burst {
        pages: u32,
        every_us: u32,
    },
    /// Writes at a steady rate, in millionths of a page a second: the same time lies between any two.
    Rate {
        micropages_per_s: u32,
    },
}

/// What a task has in slots of some length: the longest period and the longest deadline, and how many operations and
/// writes come in that period.
#[derive(Clone, Copy, Drop)]
pub struct InSlots {
    pub period: u32,
    pub deadline: u32,
    pub work: u32,
    pub writes: u32,
}

/// What a task needs.
#[derive(Clone, Copy, Drop)]
pub struct Need {
    pub asked: Asked,
    /// In how many microseconds what it asks for is to be done; where nothing is said, before it asks again.
    pub deadline_us: Option<u32>,
}

/// How many slots of `slot_us` microseconds there are in `us` microseconds.
fn slots_in(us: u32, slot_us: u32) -> u32
    ensures { (slots : ℕ) → slots ≤ result → slots * slot_us ≤ us }
{
    us / slot_us.max(1)
}

/// How often an amount has another one.
fn times_in(amount: u64, each: u64) -> u32
    ensures { (times : ℕ) → times ≤ result → times * each ≤ amount }
{
    u32::try_from(amount / each.max(1)).unwrap_or(u32::MAX)
}

/// How many slots of `slot_us` microseconds there are in the time in which `pages` pages come.
#[tactic(auto, using(crate::proofs::Paces::paced))]
fn slots_of_pages(micropages_per_s: u32, slot_us: u32, pages: u32) -> u32
    requires { pages ≤ 64 }
    ensures { (slots : ℕ) → slots ≤ result
        → micropages_per_s * (slots * slot_us) ≤ pages * 1000000000000 }
{
    let in_a_slot = u64::from(micropages_per_s) * u64::from(slot_us);
    times_in(u64::from(pages) * PAGE_SECOND, in_a_slot)
}

/// How many pages a task writes a period: the fewest by which the period, in slots, is at least 15 parts in 16 of the time
/// in which they come, or the most that a job may have.
fn pages_of_rate(micropages_per_s: u32, slot_us: u32) -> u32
    ensures { result ≤ 64 }
{
    let in_a_slot = u64::from(micropages_per_s) * u64::from(slot_us);
    for pages in 1..MOST_PAGES {
        let slots = slots_of_pages(micropages_per_s, slot_us, pages);
        let time = in_a_slot.saturating_mul(u64::from(slots));
        if time / 15 >= u64::from(pages) * PAGE_SECOND / 16 {
            return pages;
        }
    }
    MOST_PAGES
}

/// What a task that writes at a rate has in slots of a length.
fn rate_in_slots(micropages_per_s: u32, slot_us: u32) -> InSlots
    ensures does { (t : TaskTerms) → t.period ≤ result.period → t.work ≡ result.work
        → t.writes ≡ result.writes → IsPaced slot_us micropages_per_s t }
    ensures due { (deadline : ℕ) → deadline ≤ result.deadline
        → micropages_per_s * (deadline * slot_us) ≤ 1000000000000 }
{
    let pages = pages_of_rate(micropages_per_s, slot_us);
    InSlots {
        period: slots_of_pages(micropages_per_s, slot_us, pages),
        deadline: slots_of_pages(micropages_per_s, slot_us, 1),
        work: pages,
        writes: pages,
    }
}

impl Asked {
    /// What a task has in slots of a length, where it asks for no deadline.
    fn in_slots(&self, slot_us: u32) -> InSlots
        ensures does { (t : TaskTerms) → t.period ≤ result.period → t.work ≡ result.work
            → t.writes ≡ result.writes → DoesWork slot_us self.now t }
        ensures due { (deadline : ℕ) → deadline ≤ result.deadline
            → IsDue slot_us self.now None deadline }
    {
        match *self {
            Asked::Periodic {
                period_us,
                reads,
                writes,
            } => {
                let period = slots_in(period_us, slot_us);
                InSlots {
                    period,
                    deadline: period,
                    work: u32::from(reads) + u32::from(writes),
                    writes: u32::from(writes),
                }
            }
            Asked::Burst { pages, every_us } => {
                let period = slots_in(every_us, slot_us);
                InSlots {
                    period,
                    deadline: period,
                    work: pages,
                    writes: pages,
                }
            }
            Asked::Rate { micropages_per_s } => rate_in_slots(micropages_per_s, slot_us),
        }
    }
}

impl Need {
    /// In how many slots of a length what it asks for is to be done at most.
    fn deadline(&self, slot_us: u32) -> u32
        ensures { (deadline : ℕ) → deadline ≤ result
            → IsDue slot_us self.now.asked self.now.deadline_us deadline }
    {
        match self.deadline_us {
            Some(deadline_us) => slots_in(deadline_us, slot_us),
            None => self.asked.in_slots(slot_us).deadline,
        }
    }

    /// What the task has in slots of a length.
    pub fn in_slots(&self, slot_us: u32) -> InSlots
        ensures { Serves slot_us self.now result }
    {
        let wanted = self.asked.in_slots(slot_us);
        let deadline = self.deadline(slot_us).min(MAX_SLOT);
        InSlots { deadline, ..wanted }
    }

    /// Whether it asks for reads and writes once a period, and for no deadline.
    pub fn is_plain(&self) -> bool
        ensures { IsTrue result → IsPlain self.now }
    {
        match (self.asked, self.deadline_us) {
            (Asked::Periodic { .. }, None) => true,
            _ => false,
        }
    }
}

/// What the tasks of a die need, in the order of the text.
pub type Needs = Items<Need>;

/// A part, and what its tasks need.
#[derive(Drop)]
pub struct Sheet {
    pub part: Part,
    pub needs: Needs,
}

impl Sheet {
    /// Whether each task asks for reads and writes once a period, and for no deadline.
    pub fn is_plain(&self) -> bool
        ensures { IsTrue result → All IsPlain self.now.needs }
    {
        self.needs.as_slice().iter().all(|need| need.is_plain())
    }

    /// Why a slot has to hold a whole erase, if it has to.
    pub fn whole_erase(&self) -> Option<WholeErase> {
        let tasks = self.needs.len();
        match self.part.suspends {
            Suspends::No => Some(WholeErase::No),
            Suspends::One if tasks > 1 => Some(WholeErase::One { tasks }),
            Suspends::One | Suspends::Any => None,
        }
    }

    /// The shortest slot: it holds each single command, and of an erase something beside suspending and resuming it, or
    /// the whole of it.
    pub fn shortest_slot(&self) -> u32 {
        match self.whole_erase() {
            Some(_) => self.part.shortest_slot(self.part.erase_us),
            None => self.part.shortest_slot(1),
        }
    }

    /// The shortest slot with which an erase has as many slots as it may, too.
    pub fn least_slot(&self) -> u32 {
        match self.whole_erase() {
            Some(_) => self.shortest_slot(),
            None => {
                let erase_us = self.part.erase_us.div_ceil(MAX_ERASE_SLOTS).max(1);
                self.part.shortest_slot(erase_us)
            }
        }
    }

    /// The shortest slot that is tried.
    pub fn first_slot(&self) -> u32 {
        self.part.slot_us.unwrap_or(self.shortest_slot())
    }
}
