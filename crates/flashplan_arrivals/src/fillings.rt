//! From when on a die is full, where its tasks fill it.

use crate::askers::{askers_of, life};
use crate::faults::Fault;
use crate::jobs::Asker;
use slot_types::StorePlan;
use std::alloc::{AllocError, Global};

/// How the tasks of a die fill it, where none is late.
#[derive(Clone, Copy, PartialEq, Eq, Debug, Drop)]
pub struct Filling {
    /// From which slot on each of its pages is written; none where no task writes. It may lie beyond the die's life.
    pub from: Option<u64>,
    /// For how many slots the die's numbers for jobs and collections last, 1,048,576 at most.
    pub life: u32,
}

/// The slot by which a task that writes, and is never late, has written each of its pages once; none where it writes none.
fn filled_by(asker: &Asker<'_>) -> Option<u64> {
    let writes = asker.times.writes;
    if writes == 0 {
        return None;
    }
    let jobs = u64::from(asker.to_fill.div_ceil(writes));
    Some(jobs.saturating_mul(u64::from(asker.times.period)))
}

impl Filling {
    /// Adds a task of the die.
    fn add(&mut self, asker: &Asker<'_>) {
        if let Some(slot) = filled_by(asker) {
            self.from = Some(self.from.unwrap_or(0).max(slot));
        }
    }
}

/// Adds for each die that no task was seen yet that fills it.
fn put_dies(fillings: &mut Vec<Filling>, plan: &StorePlan) -> Result<(), AllocError> {
    for own in plan.as_slice() {
        fillings.push(Filling {
            from: None,
            life: life(own),
        })?;
    }
    Ok(())
}

/// By die, how its tasks fill it, where these pages lie in cells already, by die and page: one all of whose pages do is full
/// from slot 0 on. The only refusal is NoMemory.
pub fn fillings_from(
    alloc: Global,
    plan: &StorePlan,
    held: &[Vec<bool>],
) -> Result<Vec<Filling>, Fault> {
    let askers = askers_of(alloc, plan, 0, true, held)?;
    let mut fillings = Vec::new(alloc);
    put_dies(&mut fillings, plan)?;
    for asker in &askers {
        if let Some(filling) = fillings.get_mut(asker.die as usize) {
            filling.add(asker);
        }
    }
    Ok(fillings)
}

/// By die, how its tasks fill it from the first page on. The only refusal is NoMemory.
pub fn fillings_of(alloc: Global, plan: &StorePlan) -> Result<Vec<Filling>, Fault> {
    fillings_from(alloc, plan, &[])
}
