//! Whether the work of a plan with times goes on from a checkpoint.

use slot_types::TaskTimes;

/// Whether a task lacks few enough pages to its cap: those of one job, and its share for one collect period.
pub fn is_stocked_task(cap: u32, balance: u32, t: &TaskTimes) -> bool {
    let period = u64::from(t.period);
    let writes = u64::from(t.writes);
    let lacks = u64::from(cap.saturating_sub(balance));
    period.saturating_mul(lacks)
        <= period
            .saturating_mul(writes)
            .saturating_add(writes.saturating_mul(u64::from(t.collect_period)))
}

/// The most pages that a task may lack to its cap.
pub fn most_lacking(t: &TaskTimes) -> u64 {
    let writes = u64::from(t.writes);
    let share = writes.saturating_mul(u64::from(t.collect_period));
    writes.saturating_add(share / u64::from(t.period).max(1))
}
