//! How many tokens each task has, and how many pages are spare, and how low they fell.

ghost use Rattle.flashplan_run_figures.specs.Levels.{IsLowWith};

use slot_types::{Act, DiePlan};
use std::alloc::{AllocError, Global};

/// How low something fell, and the slot in which it first was so low.
#[derive(Clone, Copy, PartialEq, Eq, Debug, Drop)]
pub struct Low {
    pub value: u32,
    pub slot: u32,
}

impl Low {
    /// Notes what it is in a slot.
    fn note(&mut self, value: u32, slot: u32)
        ensures { IsLowWith value slot self.old self.new }
    {
        if value < self.value {
            *self = Low { value, slot };
        }
    }
}

/// The tokens of a task.
#[derive(Clone, Copy, PartialEq, Eq, Debug, Drop)]
pub struct Tokens {
    /// What the collection that is under way has copied.
    under_way: u32,
    /// The pages that the task may still ask to write.
    balance: u32,
    pub least: Low,
}

impl Tokens {
    /// Of a task with this balance.
    fn new(balance: u32) -> Tokens {
        Tokens {
            under_way: 0,
            balance,
            least: Low {
                value: balance,
                slot: 0,
            },
        }
    }
}

/// The tokens of each task of a die, and its spare pages.
#[derive(Drop)]
pub struct Levels {
    tasks: Vec<Tokens>,
    /// How many pages a block has.
    pages: u32,
    /// Pages that nobody owns.
    spare: u32,
    pub least_spare: Low,
}

impl Levels {
    /// Of a die of this plan whose tasks have these balances, with `spare` spare pages.
    pub fn at(
        alloc: Global,
        plan: &DiePlan,
        balances: &[u32],
        spare: u32,
    ) -> Result<Levels, AllocError> {
        let mut tasks = Vec::new(alloc);
        for balance in balances {
            tasks.push(Tokens::new(*balance))?;
        }
        Ok(Levels {
            tasks,
            pages: plan.shape.pages,
            spare,
            least_spare: Low {
                value: spare,
                slot: 0,
            },
        })
    }

    /// Of a fresh die of this plan: each task has its cap, and what is beyond the caps and the reserves is spare.
    pub fn new(alloc: Global, plan: &DiePlan) -> Result<Levels, AllocError> {
        let reserve = plan.shape.pages.saturating_sub(plan.alpha);
        let mut spare = plan.shape.blocks.saturating_mul(plan.shape.pages);
        for cap in plan.caps.as_slice() {
            spare = spare.saturating_sub(cap.saturating_add(reserve));
        }
        Levels::at(alloc, plan, plan.caps.as_slice(), spare)
    }

    /// A job of a task was accepted in a slot, with `writes` writes, which its balance pays.
    pub fn note_job(&mut self, task: u32, writes: u32, slot: u32) {
        if let Some(tokens) = self.tasks.get_mut(task as usize) {
            tokens.balance = tokens.balance.saturating_sub(writes);
            tokens.least.note(tokens.balance, slot);
        }
    }

    /// A slot carried an act of a task.
    pub fn note_act(&mut self, task: u32, act: &Act) {
        if let Act::CopyProgram { .. } = act
            && let Some(tokens) = self.tasks.get_mut(task as usize)
        {
            tokens.under_way = tokens.under_way.saturating_add(1);
        }
    }

    /// A collection of a task was waived in a slot, and gave `given` spare pages.
    pub fn note_waived(&mut self, task: u32, given: u32, slot: u32) {
        self.spare = self.spare.saturating_sub(given);
        self.least_spare.note(self.spare, slot);
        if let Some(tokens) = self.tasks.get_mut(task as usize) {
            tokens.balance = tokens.balance.saturating_add(given);
        }
    }

    /// A collection of a task was done, and gave it `given` pages. What it neither copied nor gave is spare.
    pub fn note_collected(&mut self, task: u32, given: u32) {
        if let Some(tokens) = self.tasks.get_mut(task as usize) {
            tokens.balance = tokens.balance.saturating_add(given);
            let kept = tokens.under_way.saturating_add(given);
            tokens.under_way = 0;
            self.spare = self.spare.saturating_add(self.pages.saturating_sub(kept));
        }
    }

    /// How many tasks there are.
    pub fn task_count(&self) -> usize {
        self.tasks.len()
    }

    /// The balance of a task, or none of a task that isn't there.
    pub fn balance(&self, task: usize) -> Option<u32> {
        match self.tasks.get(task) {
            Some(tokens) => Some(tokens.balance),
            None => None,
        }
    }

    /// The fewest tokens that a task had; none of a task that isn't there.
    pub(crate) fn least_of(&self, task: usize) -> Option<Low> {
        match self.tasks.get(task) {
            Some(tokens) => Some(tokens.least),
            None => None,
        }
    }

    /// The pages that nobody owns.
    pub fn spare(&self) -> u32 {
        self.spare
    }
}
