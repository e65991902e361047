//! A die of a script's run, with its rows.

ghost use Rattle.std.specs.Prelude.{◌≡◌, ◌+◌, ◌<◌, ◌≤◌, ◌^◌, [], IfOk, length};
ghost use Rattle.std.specs.Box.{box_value};
ghost use Rattle.slot_types.specs.Refusal.{FailsForMemory};
ghost use Rattle.slot_types.specs.declared.plans.DiePlan.{DiePlan as Plan};
ghost use Rattle.plan_rules.specs.Bound.{MeetsBound};
ghost use Rattle.task_script.specs.RowDies.{AddsRow, HasCome, HasRead, IsIdle, core_of};
ghost use Rattle.task_script.specs.RowRunners.{AreInReach, RunsBatch};
ghost use Rattle.task_script.specs.RowEnds.{ends_from, taken_at};
ghost use Rattle.task_script.specs.RowTexts.{AreOfOneDie};
ghost use Rattle.task_script.specs.RunCounts.{counted_after, rows_in};

use crate::row_batches::RowBatch;
use crate::run_counts::{RowEnd, RunCount};
use crate::stores::new_die;
use die_service::{RefusedEvent, RunDie};
use flash_die::MemoryNand;
use script_texts::{RowHead, RowTexts, read_ops};
use slot_core::DieCore;
use slot_types::{DiePlan, MAX_SLOT, PackedOps, Refusal};
use std::alloc::Global;

/// A die in memory that its run owns, the rows that it is given, and what became of those before.
#[derive(Drop)]
pub struct RowDie {
    die: RunDie<MemoryNand>,
    /// What became of its rows so far.
    count: RunCount,
    /// The lines of the rows that it is given now, and the greatest slot by which one of them comes.
    lines: Vec<u32>,
    latest: u32,
    /// The operations of one row.
    ops: PackedOps,
}

/// Why the event of a place was refused, if it was, and the refused events after it.
fn take_refused(refused: &[RefusedEvent], place: usize) -> (Option<Refusal>, &[RefusedEvent])
    ensures refusal { result.0 ≡ (taken_at place refused.now).0 }
    ensures rest { result.1.now ≡ (taken_at place refused.now).1 }
{
    match refused.split_first() {
        Some((first, rest)) if first.place == place => (Some(first.refused.refusal), rest),
        _ => (None, refused),
    }
}

/// Counts the rows with these lines, by the events that were refused.
fn add_rows(lines: &[u32], refused: &[RefusedEvent], count: &mut RunCount)
    requires few { rows_in count.old + length lines.now < 2 ^ 64 }
    ensures { count.new ≡ counted_after count.old (ends_from 0 lines.now refused.now) }
{
    let mut rest = refused;
    for place in 0..lines.len() {
        let (refusal, later) = take_refused(rest, place);
        let line = lines[place];
        count.add(RowEnd { line, refusal });
        rest = later;
    }
}

impl RowDie {
    /// A fresh die of a plan. The only refusal is NoMemory.
    pub fn new(alloc: Global, plan: &DiePlan) -> Result<RowDie, Refusal>
        requires { MeetsBound plan.now }
        ensures fresh { IfOk result (HasCome plan.now [] 0) }
        ensures refused { FailsForMemory result }
    {
        let core = new_die(alloc, plan)?;
        Ok(RowDie {
            die: RunDie::new(alloc, core),
            count: RunCount::none(),
            lines: Vec::new(alloc),
            latest: 0,
            ops: PackedOps::new(alloc),
        })
    }

    /// Adds a row, of its head and the text of its operations. Refused as ScriptRow, where the text is at fault, or as
    /// NoMemory; the die is given up then.
    fn add(&mut self, head: &RowHead, text: &[u8]) -> Result<(), Refusal>
        ensures { AddsRow head.now text.now self.old result self.new }
    {
        match read_ops(&mut self.ops, head, text) {
            Ok(()) => {}
            Err(refusal) => return Err(refusal),
        }
        self.lines.reserve(1)?;
        self.die.add(head.at, head.job, &self.ops.lend())?;
        self.lines.push_reserved(head.line);
        self.latest = self.latest.max(head.at);
        Ok(())
    }

    /// Reads rows, which are all of one die. Refused as the first row that is at fault, or as NoMemory; the die is given
    /// up then.
    fn read(&mut self, texts: &RowTexts) -> Result<(), Refusal>
        requires one_die { AreOfOneDie texts.now }
        requires none { (plan : Plan) × IsIdle plan self.old }
        ensures { HasRead texts.now self.old result self.new }
    {
        self.latest = 0;
        for place in 0..texts.len() {
            let (head, text) = texts.row(place);
            match self.add(&head, text) {
                Ok(()) => {}
                Err(refusal) => return Err(refusal),
            }
        }
        Ok(())
    }

    /// Reads and runs rows, up to the last one, and at least up to the batch's slot, and counts them. Refused as the first
    /// row that is at fault, or as NoMemory; the die is given up then.
    pub fn run(&mut self, batch: &RowBatch) -> Result<(), Refusal>
        requires idle { (plan : Plan) × IsIdle plan self.old }
        requires one_die { AreOfOneDie batch.now.rows }
        requires in_reach { AreInReach batch.now.rows }
        requires within { batch.now.until ≤ MAX_SLOT }
        requires few { rows_in self.old.count + length batch.now.rows < 2 ^ 64 }
        ensures { RunsBatch batch.now self.old result self.new }
    {
        match self.read(&batch.rows) {
            Ok(()) => {}
            Err(refusal) => return Err(refusal),
        }
        match self.die.run(self.latest.max(batch.until)) {
            Ok(()) => {}
            Err(refusal) => return Err(refusal),
        }
        add_rows(self.lines.as_slice(), self.die.refused(), &mut self.count);
        self.lines.clear();
        self.die.clear();
        Ok(())
    }

    /// The die, and what became of its rows.
    pub fn into_parts(self) -> (Box<DieCore<MemoryNand>>, RunCount)
        ensures die { box_value result.0 ≡ core_of self }
        ensures count { result.1 ≡ self.count }
    {
        (self.die.into_die(), self.count)
    }
}
