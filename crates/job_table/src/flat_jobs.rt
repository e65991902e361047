//! The jobs and collections of a table by number, without a list of their own each.

ghost use Rattle.std.specs.Prelude.{◌≡◌, ◌+◌, ◌<◌, ◌≤◌, ◌^◌, ◌∷◌, ◌++◌, [], true, false, Some, length, slice_get, replicate, vec_len, if◌then◌else◌};
ghost use Rattle.std.specs.Prelude.{vec_capacity, IsOk, OnOk, IfOk, OnErr};
ghost use Rattle.slot_types.specs.Refusal.{FailsForMemory};
ghost use Rattle.slot_types.specs.declared.limits.TheConstants.{MAX_JOBS, MAX_OPS};
ghost use Rattle.job_table.specs.Jobs.{JobRecord, with_one_more_slot, with_read, with_stage};
ghost use Rattle.job_table.specs.Table.{changed_at, work_at, reads_next_at};
ghost use Rattle.slot_types.specs.Operations.{is_some_write};
ghost use Rattle.job_table.specs.Entering.{job_of};
ghost use Rattle.job_table.specs.Reserves.{Covers, no_reserve, reserve_after, reserve_with};
ghost use Rattle.job_table.specs.Flat.{blank, ops_at, places_lacking, places_unfilled, place_from, with_page, IsRowOf};

use crate::counted_ops::CountedOps;
use crate::jobs::Job;
use crate::rows::Row;
use crate::stages::Stage;
use slot_types::{JobHead, JobNo, OpArena, PageData, Refusal};
use std::alloc::Global;
use std::marker::Model;

/// Jobs and collections by number. A row names operations and reads by their places in arenas, so a job has no memory
/// of its own: accepting one takes memory only where a list grows, and freeing all is freeing four lists.
#[derive(Drop)]
pub(crate) struct FlatJobs {
    rows: Vec<Row>,
    ops: OpArena,
    /// What reads gave, each in a place of its job, and room for the reads of all jobs: so a job that never runs takes
    /// room for its reads, and none of it is touched.
    reads: Vec<PageData>,
    /// How many places were given to jobs, of which the last may not be filled yet.
    placed: u32,
    /// How many reads all jobs have.
    all_reads: u32,
    /// For how many more jobs memory is reserved.
    arrivals: u32,
    /// For how many there is memory where none stands.
    lasting_arrivals: u32,
}

impl Model for FlatJobs {
    ghost use Rattle.job_table.specs.Reserves.{KeptJobs};

    ghost Value = { KeptJobs };

    ghost use Rattle.std.specs.Prelude.{vec_len, vec_capacity};
    ghost use Rattle.job_table.specs.Flat.{jobs_at, AreLaid, HaveRoom, HasFewOps};
    ghost use Rattle.job_table.specs.Reserves.{HasReserve};

    ghost view = { λ j. record {
      jobs = jobs_at j.ops.ops j.reads.items j.rows.items;
      reserve = record { arrivals = j.arrivals; operations = j.ops.room };
      lasting = record { arrivals = j.lasting_arrivals; operations = j.ops.lasting };
    } };

    ghost invariant = { λ j. AreLaid j.rows.items j.ops.ops j.reads.items j.placed
        × HaveRoom j.rows.items j.ops.ops j.reads.items j.all_reads j.placed (vec_capacity j.reads)
        × HasFewOps j.rows.items j.ops.ops
        × HasReserve (record { arrivals = j.arrivals; operations = j.ops.room })
        (record { arrivals = j.lasting_arrivals; operations = j.ops.lasting })
        (vec_len j.rows) (vec_capacity j.rows) j.all_reads (vec_capacity j.reads) };
}

/// Fills `count` places, in room that was made.
fn fill_places(reads: &mut Vec<PageData>, count: usize)
    requires room { vec_len reads.old + count ≤ vec_capacity reads.old }
    ensures places { reads.new.items ≡ reads.old.items ++ replicate count blank }
    ensures capacity { vec_capacity reads.new ≡ vec_capacity reads.old }
{
    for _place in 0..count {
        reads.push_reserved(PageData::BLANK);
    }
}

/// Gives a row that has not read yet a place for each of its reads, after those of all others. One that has read keeps
/// those that it has.
///
/// Jobs may read by turns, and each lends what its reads gave as one slice. So a job's places stay next to each other:
/// where the job before has reads left, their places are filled first.
fn give_places(row: &mut Row, reads: &mut Vec<PageData>, placed: &mut u32)
    requires filled { vec_len reads.old ≤ placed.old }
    requires room { placed.old ≤ vec_capacity reads.old }
    requires few { placed.old + places_lacking row.old < 2 ^ 32 }
    ensures placed { placed.new ≡ placed.old + places_lacking row.old }
    ensures row { row.new ≡ record row.old { first_place = place_from placed.old row.old } }
    ensures places { reads.new.items ≡ reads.old.items
        ++ replicate (places_unfilled placed.old (vec_len reads.old) row.old) blank }
    ensures capacity { vec_capacity reads.new ≡ vec_capacity reads.old }
{
    if row.reads_done == 0 {
        let unfilled = *placed as usize - reads.len();
        fill_places(reads, unfilled);
        row.first_place = *placed;
        *placed += row.read_count as u32;
    }
}

/// Puts the bytes of a read at its place, or after all others, in room that was made.
fn put_page(reads: &mut Vec<PageData>, place: usize, bytes: PageData)
    requires there { place ≤ vec_len reads.old }
    requires room { place < vec_capacity reads.old }
    ensures pages { reads.new.items ≡ with_page reads.old.items place bytes }
    ensures capacity { vec_capacity reads.new ≡ vec_capacity reads.old }
{
    if place == reads.len() {
        reads.push_reserved(bytes);
    } else {
        reads[place] = bytes;
    }
}

/// How many writes the next operation of a row is: one or none.
fn next_writes(row: &Row, ops: &OpArena) -> u8
    requires { IsRowOf ops.now.ops row.now }
    ensures { result
        ≡ (if is_some_write (slice_get (ops_at ops.now.ops row.now) row.now.work) then 1 else 0) }
{
    if row.work >= row.op_count as u32 {
        return 0;
    }
    if ops.is_write_at(row.first_op as usize + row.work as usize) {
        1
    } else {
        0
    }
}

impl FlatJobs {
    /// No job. It takes no memory.
    pub(crate) fn new(alloc: Global) -> FlatJobs
        ensures { result
            ≡ record { jobs = []; reserve = no_reserve; lasting = no_reserve } }
    {
        FlatJobs {
            rows: Vec::new(alloc),
            ops: OpArena::new(alloc),
            reads: Vec::new(alloc),
            placed: 0,
            all_reads: 0,
            arrivals: 0,
            lasting_arrivals: 0,
        }
    }

    /// Takes all jobs away. The memory stays, and as much is reserved again as ever was.
    pub(crate) fn clear(&mut self)
        ensures { self.new ≡ record self.old { jobs = []; reserve = self.old.lasting } }
    {
        self.rows.clear();
        self.ops.clear();
        self.reads.clear();
        self.placed = 0;
        self.all_reads = 0;
        self.arrivals = self.lasting_arrivals;
    }

    /// How many there are.
    pub(crate) fn len(&self) -> u32
        requires { length self.now.jobs < 2 ^ 32 }
        ensures { result ≡ length self.now.jobs }
    {
        self.rows.len() as u32
    }

    /// For how many more memory is reserved.
    pub(crate) fn reserved_arrivals(&self) -> u32
        ensures { result ≡ self.now.reserve.arrivals }
    {
        self.arrivals
    }

    /// For how many there is memory where none stands.
    pub(crate) fn lasting_arrivals(&self) -> u32
        ensures { result ≡ self.now.lasting.arrivals }
    {
        self.lasting_arrivals
    }

    /// For how many operations of these memory is reserved, in all.
    pub(crate) fn reserved_operations(&self) -> u64
        ensures { result ≡ self.now.reserve.operations }
    {
        self.ops.room() as u64
    }

    /// The one of a number, if there is one.
    pub(crate) fn get(&self, number: JobNo) -> Option<Job<'_>>
        ensures { slice_get self.now.jobs number ≡ result }
    {
        if number.0 as usize >= self.rows.len() {
            return None;
        }
        Some(self.at(number))
    }

    /// The one of a number that is there.
    pub(crate) fn at(&self, number: JobNo) -> Job<'_>
        requires { number < length self.now.jobs }
        ensures { slice_get self.now.jobs number ≡ Some result }
    {
        Job {
            ops: &self.ops,
            reads: self.reads.as_slice(),
            row: &self.rows[number.0 as usize],
        }
    }

    /// Reserves memory for `arrivals` more jobs with `operations` operations in all. Where it is reserved for as many
    /// already, this isn't refused. Refused with `NoMemory`, nothing changes.
    pub(crate) fn reserve(&mut self, arrivals: u32, operations: u32) -> Result<(), Refusal>
        ensures ok { OnOk result (self.new ≡ record self.old {
          reserve = reserve_with arrivals operations self.old.reserve;
          lasting = reserve_with arrivals operations self.old.lasting;
        }) }
        ensures refused { FailsForMemory result }
        ensures succeeds { arrivals ≤ self.old.reserve.arrivals
            → operations ≤ self.old.reserve.operations → IsOk result }
        ensures err { OnErr result (self.new ≡ self.old) }
    {
        let most = self.arrivals.max(arrivals);
        let most_operations = self.ops.room().max(operations as usize);
        self.rows.reserve(most as usize)?;
        // Each of the operations may be a read.
        self.reads.reserve(self.all_reads as usize + most_operations - self.reads.len())?;
        self.ops.reserve(operations as usize)?;
        self.arrivals = most;
        self.lasting_arrivals = self.lasting_arrivals.max(arrivals);
        Ok(())
    }

    /// Adds a job of at most 64 operations that has not begun, or a collection, and answers its number. It takes all
    /// memory that it will ever need, first of what is reserved: where that covers it, it isn't refused. Refused with
    /// `NoMemory`, all stay as they were.
    pub(crate) fn push(&mut self, head: &JobHead, ops: &CountedOps) -> Result<u32, Refusal>
        requires few { length self.old.jobs < MAX_JOBS }
        requires few_ops { length ops.now ≤ MAX_OPS }
        ensures ok { OnOk result (self.new ≡ record self.old {
          jobs = self.old.jobs ++ job_of head.now ops.now ∷ [];
          reserve = reserve_after (length ops.now) self.old.reserve;
        }) }
        ensures succeeds { Covers self.old.reserve (length ops.now) → IsOk result }
        ensures number { IfOk result (λ number. number ≡ length self.old.jobs) }
        ensures refused { FailsForMemory result }
        ensures err { OnErr result (self.new ≡ self.old) }
    {
        let JobHead {
            collects,
            task,
            release,
            due,
        } = *head;
        let all_reads = self.all_reads as usize + ops.reads();
        let row = Row {
            task,
            release,
            due,
            first_op: self.ops.len() as u32,
            first_write: self.ops.writes() as u32,
            first_place: 0,
            work: 0,
            stage: Stage::Pending,
            op_count: ops.len() as u8,
            read_count: ops.reads() as u8,
            reads_done: 0,
            writes_done: 0,
            collects,
        };
        self.rows.reserve(1)?;
        // Room for the reads of all jobs that have no places yet, and of this one.
        self.reads.reserve(all_reads - self.reads.len())?;
        ops.add_to(&mut self.ops)?;
        let number = self.rows.len() as u32;
        self.rows.push_reserved(row);
        self.all_reads = all_reads as u32;
        self.arrivals = self.arrivals.saturating_sub(1);
        Ok(number)
    }

    /// It took one more slot, which wasn't a read of a job.
    pub(crate) fn carry(&mut self, number: JobNo)
        requires there { number < length self.old.jobs }
        requires reads { reads_next_at self.old.jobs number ≡ false }
        requires room { work_at self.old.jobs number + 1 < 2 ^ 32 }
        ensures { self.new
            ≡ record self.old { jobs = changed_at self.old.jobs number with_one_more_slot } }
    {
        let row = &mut self.rows[number.0 as usize];
        row.writes_done += next_writes(row, &self.ops);
        row.work += 1;
    }

    /// It took one more slot, in which its read gave these bytes.
    pub(crate) fn carry_read(&mut self, number: JobNo, bytes: PageData)
        requires there { number < length self.old.jobs }
        requires reads { reads_next_at self.old.jobs number ≡ true }
        requires room { work_at self.old.jobs number + 1 < 2 ^ 32 }
        ensures { self.new ≡ record self.old {
          jobs = changed_at self.old.jobs number (λ job.
              with_read bytes (with_one_more_slot job));
        } }
    {
        let row = &mut self.rows[number.0 as usize];
        give_places(row, &mut self.reads, &mut self.placed);
        let place = row.first_place as usize + row.reads_done as usize;
        row.reads_done += 1;
        row.work += 1;
        put_page(&mut self.reads, place, bytes);
    }

    /// It stands otherwise from now on.
    pub(crate) fn set_stage(&mut self, number: JobNo, stage: Stage)
        requires { number < length self.old.jobs }
        ensures { self.new
            ≡ record self.old { jobs = changed_at self.old.jobs number (with_stage stage) } }
    {
        let row = &mut self.rows[number.0 as usize];
        row.stage = stage;
    }
}
