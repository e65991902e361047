//! How many jobs and collections a die gets, and for how many slots its numbers last.

ghost use Rattle.std.specs.Prelude.{IfErr};
ghost use Rattle.flashplan_arrivals.specs.PlannedScripts.{IsOwnFault};

use demand_rules::TaskTerms;
use flashplan_arrivals::Fault;
use slot_types::{MAX_JOBS, MAX_OPS, MAX_SLOT};
use terms_texts::StoreTerms;

/// How many multiples of a period lie below `slots`, with `deadline` slots left until 1,048,576.
fn multiples(period: u32, deadline: u32, slots: u32) -> u64 {
    if slots == 0 || deadline > MAX_SLOT {
        return 0;
    }
    let last = slots
        .saturating_sub(1)
        .min(MAX_SLOT.saturating_sub(deadline));
    u64::from(last / period.max(1)).saturating_add(1)
}

/// How much comes of a task, or of a die, in some slots.
#[derive(Clone, Copy, PartialEq, Eq, Debug, Drop)]
pub struct Comes {
    pub jobs: u64,
    pub collections: u64,
    /// Of all jobs.
    pub operations: u64,
}

impl Comes {
    /// How many jobs and collections.
    fn both(&self) -> u64 {
        self.jobs.saturating_add(self.collections)
    }
}

/// How much comes of a task in `slots` slots.
fn of_task(own: &TaskTerms, slots: u32) -> Comes {
    let bursts = multiples(own.period, own.deadline, slots);
    Comes {
        jobs: bursts.saturating_mul(u64::from(own.work.div_ceil(MAX_OPS))),
        collections: multiples(own.collect_period, own.collect_deadline, slots),
        operations: bursts.saturating_mul(u64::from(own.work)),
    }
}

/// How much comes of tasks with these terms in `slots` slots, where they ask for all that they may: all at once in slot
/// 0, and from then on as often as they may. What would be due after slot 1,048,576 doesn't come.
pub fn comes_in(tasks: &[TaskTerms], slots: u32) -> Comes {
    let mut comes = Comes {
        jobs: 0,
        collections: 0,
        operations: 0,
    };
    for own in tasks {
        let more = of_task(own, slots);
        comes.jobs = comes.jobs.saturating_add(more.jobs);
        comes.collections = comes.collections.saturating_add(more.collections);
        comes.operations = comes.operations.saturating_add(more.operations);
    }
    comes
}

/// Whether a die gets no more jobs and collections than it accepts.
fn is_few(tasks: &[TaskTerms], slots: u32) -> bool {
    comes_in(tasks, slots).both() <= u64::from(MAX_JOBS)
}

/// The most slots, 1,048,576 at most, in which a die gets no more than 65,536 jobs and collections of tasks with these terms. In
/// more slots it never gets fewer. A die then goes on by a renewal.
pub fn life_of(tasks: &[TaskTerms]) -> u32 {
    if is_few(tasks, MAX_SLOT) {
        return MAX_SLOT;
    }
    let (mut few, mut many) = (0u32, MAX_SLOT);
    // 2^20 slots are halved until the two are neighbors.
    for _ in 0..20 {
        let middle = few.saturating_add(many.saturating_sub(few) / 2);
        if is_few(tasks, middle) {
            few = middle;
        } else {
            many = middle;
        }
    }
    few
}

/// That the numbers of each die last for `slots` slots; else the die whose numbers last least.
pub(crate) fn check_lives(store: &StoreTerms, slots: u32) -> Result<(), Fault>
    ensures { IfErr result IsOwnFault }
{
    let (mut most, mut shortest, mut die) = (MAX_SLOT, 0u32, 0u32);
    for made in store.as_slice() {
        let life = life_of(made.terms.tasks.as_slice());
        if life < most {
            most = life;
            shortest = die;
        }
        die = die.saturating_add(1);
    }
    if most < slots {
        let die = shortest;
        return Err(Fault::TooMany { die, most });
    }
    Ok(())
}
