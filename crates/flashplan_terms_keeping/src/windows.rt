//! What is counted of a task's rows in a period.

use demand_keeping::Count;
use flashplan_keeping::Line;

/// The slots of a task's period: from a first one on, up to one that isn't among them any more.
#[derive(Clone, Copy, Drop)]
pub(crate) struct Window {
    pub(crate) task: u32,
    pub(crate) start: u32,
    pub(crate) end: u64,
}

/// The row with which more is counted than may be, and how much is counted then.
#[derive(Clone, Copy, Drop)]
pub(crate) struct Excess {
    pub(crate) line: Line,
    pub(crate) counted: u64,
}

/// The slot in which a row is counted.
fn slot_of(count: Count, line: &Line) -> u32 {
    match count {
        Count::Operations => line.release,
        Count::Writes => line.at,
    }
}

/// How much is counted of a row.
fn amount_of(count: Count, line: &Line) -> u64 {
    match count {
        Count::Operations => line.ops as u64,
        Count::Writes => line.writes as u64,
    }
}

impl Window {
    /// Whether a row is a job of the task that is counted here.
    fn has(&self, count: Count, line: &Line) -> bool {
        let slot = slot_of(count, line);
        !line.collects && line.task == self.task && self.start <= slot && u64::from(slot) < self.end
    }

    /// The first row, in the order of the script, with which more is counted than the limit.
    pub(crate) fn excess(&self, count: Count, limit: u32, lines: &[Line]) -> Option<Excess> {
        let mut counted: u64 = 0;
        for line in lines {
            if self.has(count, line) {
                counted = counted.saturating_add(amount_of(count, line));
                if counted > u64::from(limit) {
                    return Some(Excess {
                        line: *line,
                        counted,
                    });
                }
            }
        }
        None
    }
}
