//! The plan of the dies on which tables are played.

use slot_types::{Caps, DiePlan, Refusal, Shape, StorePlan};
use std::alloc::Global;

/// A plan, by the device and how many logical pages it keeps.
#[derive(Drop)]
pub(crate) struct Plan {
    pub(crate) shape: Shape,
    pub(crate) logical: u32,
}

/// The plan of every test: one task of four tokens. With 12 logical pages of 32 there are pages to spare, so what a
/// table shows of passes, runs and devices isn't mixed with collections.
pub(crate) const ROOMY: Plan = Plan {
    shape: Shape {
        blocks: 8,
        pages: 4,
        erase_slots: 3,
    },
    logical: 12,
};

impl Plan {
    // The plan as a die takes it.
    fn of_die(&self, alloc: Global) -> Result<DiePlan, Refusal> {
        let mut caps = Caps::new(alloc);
        caps.push(4)?;
        Ok(DiePlan {
            shape: self.shape,
            logical: self.logical,
            alpha: 2,
            caps,
            times: None,
        })
    }

    /// The plan of a store of `dies` dies.
    pub(crate) fn of_store(&self, alloc: Global, dies: u32) -> Result<StorePlan, Refusal> {
        let mut plan = StorePlan::new(alloc);
        for _ in 0..dies {
            plan.push(self.of_die(alloc)?)?;
        }
        Ok(plan)
    }
}
