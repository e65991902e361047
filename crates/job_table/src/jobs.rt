//! A job or a collection, as a table shows it.

ghost use Rattle.std.specs.Prelude.{◌≡◌, true, false, count_by, length, slice_get, take};
ghost use Rattle.job_table.specs.Jobs.{is_read, is_pending, lateness_of, completion_in};

use crate::rows::Row;
use crate::stages::Stage;
use slot_types::{Op, OpArena, PageData, TaskNo};
use std::marker::Model;

/// A job, or a collection: what it was accepted with, how many slots it took so far, and how it stands. It is lent by a
/// table, and has nothing of its own.
#[derive(Drop)]
pub struct Job<'a> {
    pub(crate) ops: &'a OpArena,
    pub(crate) reads: &'a [PageData],
    pub(crate) row: &'a Row,
}

impl<'a> Model for Job<'a> {
    ghost use Rattle.job_table.specs.Jobs.{JobRecord};

    ghost Value = { JobRecord };

    ghost use Rattle.job_table.specs.Flat.{job_at, IsRowIn};

    ghost view = { λ j. job_at j.ops.now.ops j.reads.now j.row.now };

    ghost invariant = { λ j. IsRowIn j.ops.now.ops j.reads.now j.row.now };
}

impl<'a> Job<'a> {
    /// Whether it is a collection.
    pub fn collects(&self) -> bool
        ensures { result ≡ self.now.collects }
    {
        self.row.collects
    }

    /// The task whose job it is, or for which it collects.
    pub fn task(&self) -> TaskNo
        ensures { result ≡ self.now.task }
    {
        self.row.task
    }

    /// The slot from which on it may run.
    pub fn release(&self) -> u32
        ensures { result ≡ self.now.release }
    {
        self.row.release
    }

    /// The slot before which it is to be done.
    pub fn due(&self) -> u32
        ensures { result ≡ self.now.due }
    {
        self.row.due
    }

    /// How many operations a job has; a collection has none.
    pub fn op_count(&self) -> usize
        ensures { result ≡ length self.now.ops }
    {
        self.row.op_count as usize
    }

    /// The operation at a place from 0, if there is one. It takes a step for each operation before it.
    pub fn op(&self, place: u32) -> Option<Op>
        ensures { result ≡ slice_get self.now.ops place }
    {
        if place >= self.row.op_count as u32 {
            return None;
        }
        let from = self.row.first_op as usize;
        let at = from + place as usize;
        let writes = self.row.first_write as usize + self.ops.count_writes(from, at);
        Some(self.ops.get(at, writes))
    }

    /// The operation that its next slot carries, if one is left.
    pub fn next_op(&self) -> Option<Op>
        ensures { result ≡ slice_get self.now.ops self.now.work }
    {
        if self.row.work >= self.row.op_count as u32 {
            return None;
        }
        let at = self.row.first_op as usize + self.row.work as usize;
        let writes = self.row.first_write as usize + self.row.writes_done as usize;
        Some(self.ops.get(at, writes))
    }

    /// How many slots it took so far. Its reads gave their bytes in as many of them as there are reads among the
    /// operations before that place.
    pub fn work(&self) -> u32
        ensures work { result ≡ self.now.work }
        ensures reads { length self.now.reads ≡ count_by is_read (take self.now.work self.now.ops) }
    {
        self.row.work
    }

    /// What its reads gave so far, in order.
    pub fn reads(&self) -> &[PageData]
        ensures { result.now ≡ self.now.reads }
    {
        let from = self.row.first_place as usize;
        &self.reads[from..from + self.row.reads_done as usize]
    }

    /// Whether it is over, and how it ended.
    pub fn stage(&self) -> Stage
        ensures { result ≡ self.now.stage }
    {
        self.row.stage
    }

    /// Whether it is neither done nor waived.
    pub fn is_pending(&self) -> bool
        ensures { result ≡ is_pending self.now.stage }
    {
        matches!(self.row.stage, Stage::Pending)
    }

    /// How late it was done; below 0 where it was early.
    pub(crate) fn lateness(&self) -> i64
        ensures { result ≡ lateness_of self.now }
    {
        self.completion() as i64 - self.row.due as i64
    }

    /// 1 + the slot in which it was done, or 0 if it isn't done.
    pub(crate) fn completion(&self) -> u32
        ensures { result ≡ completion_in self.now.stage }
    {
        match self.row.stage {
            Stage::Done { completion, .. } => completion,
            _ => 0,
        }
    }
}
