//! The rows of a die, by their places.

use script_texts::{ScriptItem, ScriptReader};
use slot_types::{Event, Op, Refusal, StorePlan};
use std::alloc::Global;

/// A row of a script, without its operations.
#[derive(Clone, Copy, PartialEq, Eq, Debug, Drop)]
pub struct Line {
    /// The number of its record, the header being 1.
    pub record: u32,
    pub at: u32,
    pub collects: bool,
    pub task: u32,
    pub release: u32,
    pub due: u32,
    pub ops: usize,
    pub writes: usize,
    /// The greatest of its pages.
    pub page: u32,
}

/// What of a row is reported.
fn line_of(item: &ScriptItem) -> Option<Line> {
    let mut line = Line {
        record: item.line,
        at: item.at,
        collects: true,
        task: 0,
        release: 0,
        due: 0,
        ops: 0,
        writes: 0,
        page: 0,
    };
    match &item.event {
        Event::Submit {
            task,
            release,
            due,
            ops,
        } => {
            line.collects = false;
            line.task = task.0;
            line.release = *release;
            line.due = *due;
            add_ops(&mut line, ops.as_slice());
        }
        Event::Collect { task, release, due } => {
            line.task = task.0;
            line.release = *release;
            line.due = *due;
        }
        Event::Slot => return None,
    }
    Some(line)
}

/// Counts operations.
fn add_ops(line: &mut Line, ops: &[Op]) {
    for op in ops {
        let page = match op {
            Op::Read(page) | Op::Trim(page) => *page,
            Op::Write(page, _) => {
                line.writes = line.writes.saturating_add(1);
                *page
            }
        };
        line.page = line.page.max(page);
    }
    line.ops = ops.len();
}

/// The rows of a die, in their order.
pub fn die_lines(
    alloc: Global,
    text: &[u8],
    plan: &StorePlan,
    slots: u32,
    die: u32,
) -> Result<Vec<Line>, Refusal> {
    let mut lines = Vec::new(alloc);
    let mut script = ScriptReader::new(alloc, text, plan, slots)?;
    for _ in 0..u64::MAX {
        let Some(item) = script.next()? else {
            break;
        };
        if item.die != die {
            continue;
        }
        if let Some(line) = line_of(&item) {
            lines.push(line)?;
        }
    }
    Ok(lines)
}
