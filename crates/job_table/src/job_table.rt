//! The jobs and collections of a die by number.

ghost use Rattle.std.specs.Prelude.{◌≡◌, ◌<◌, ◌≤◌, ◌+◌, ◌^◌, ◌==◌, List, true, false, length, slice_get, IsOk, OnOk, IfOk, OnErr, IfSome};
ghost use Rattle.std.specs.Prelude.{IfNone, IsTrue, ◌↔◌};
ghost use Rattle.slot_types.specs.Refusal.{FailsForMemory};
ghost use Rattle.job_table.specs.Jobs.{JobRecord, with_one_more_slot, with_read, with_stage};
ghost use Rattle.job_table.specs.Table.{empty_table, cleared_table, with_job, with_change, work_at, reads_next_at, is_collecting};
ghost use Rattle.job_table.specs.Waivers.{AreWaived, WerePending, jobs_after_waivers, stopped_table};
ghost use Rattle.job_table.specs.Entering.{MayEnter, job_of};
ghost use Rattle.job_table.specs.Heads.{WereHeads, with_waived};
ghost use Rattle.job_table.specs.Order.{IsHead, IsNextReleased, NothingReady, NothingWaiting};
ghost use Rattle.job_table.specs.Worst.{IsWorst, NothingDone, lateness_at};
ghost use Rattle.job_table.specs.Reserves.{Covers, reserve_with};

use crate::changes::{end_job, mark, take_back};
use crate::counted_ops::CountedOps;
use crate::flat_jobs::FlatJobs;
use crate::jobs::Job;
use crate::queues::Queues;
use crate::stages::Stage;
use crate::worst::worse_of;
use slot_types::{JobHead, JobNo, MAX_JOBS, MAX_OPS, PageData, Refusal, TaskNo, Waived};
use std::alloc::Global;
use std::marker::Model;

/// The jobs and collections of a die by number, 0, 1, 2, .. in order of acceptance, and who of them is next.
///
/// Contracts see the number of tasks, the last slot that `head` was asked for, whether the die has stopped, and the
/// jobs in order. Accepting is all that takes memory. A slot is: `head` asked for its number; each head that is waived,
/// and `head` asked again; then the head carried, and finished with its last act.
#[derive(Drop)]
pub struct JobTable {
    jobs: FlatJobs,
    /// By task whether it has a pending collection.
    collecting: Vec<bool>,
    queues: Queues,
    /// The number of the worst job, if one is done.
    worst: Option<u32>,
    clock: u32,
    ended: bool,
}

impl Model for JobTable {
    ghost use Rattle.std.specs.Prelude.{length};
    ghost use Rattle.job_table.specs.Table.{Table};
    ghost use Rattle.job_table.specs.SoundTable.{IsSoundTable, HasQueueRoom};

    ghost Value = { Table };

    ghost view = { λ t. record {
      tasks = length t.collecting.items;
      clock = t.clock;
      ended = t.ended;
      jobs = t.jobs.jobs;
      reserve = t.jobs.reserve;
      lasting = t.jobs.lasting;
    } };

    ghost invariant = { λ t. IsSoundTable t.jobs.jobs t.clock t.ended t.collecting.items t.queues t.worst
        × HasQueueRoom t.jobs.reserve.arrivals t.jobs.lasting.arrivals t.queues };
}

impl JobTable {
    /// A table of a die with `tasks` tasks, without jobs, at slot 0. It may be refused with `NoMemory`.
    pub fn new(alloc: Global, tasks: u32) -> Result<JobTable, Refusal>
        ensures ok { IfOk result (λ table. table ≡ empty_table tasks) }
        ensures refused { FailsForMemory result }
    {
        let collecting = vec![in alloc; false; tasks as usize]?;
        Ok(JobTable {
            jobs: FlatJobs::new(alloc),
            collecting,
            queues: Queues::new(alloc),
            worst: None,
            clock: 0,
            ended: false,
        })
    }

    /// Takes all jobs and collections away, at slot 0 again. The table keeps its memory for those that come, and as much
    /// is reserved again as ever was. It takes none.
    pub fn clear(&mut self)
        ensures { self.new ≡ cleared_table self.old }
    {
        self.jobs.clear();
        self.queues.clear();
        self.collecting.fill(false);
        self.worst = None;
        self.clock = 0;
        self.ended = false;
    }

    /// Takes all jobs and collections away, as [`clear`](JobTable::clear), and gives their memory back, that which is
    /// reserved too.
    pub fn give_back(&mut self, alloc: Global)
        ensures { self.new ≡ empty_table self.old.tasks }
    {
        self.jobs = FlatJobs::new(alloc);
        self.queues = Queues::new(alloc);
        self.collecting.fill(false);
        self.worst = None;
        self.clock = 0;
        self.ended = false;
    }

    /// How many jobs and collections there are. The next one has this number.
    pub fn len(&self) -> u32
        ensures len { result ≡ length self.now.jobs }
        ensures few { result ≤ MAX_JOBS }
    {
        self.jobs.len()
    }

    /// Whether there is none.
    pub fn is_empty(&self) -> bool
        ensures { result ≡ (length self.now.jobs == 0) }
    {
        self.jobs.len() == 0
    }

    /// How many tasks there are.
    pub fn tasks(&self) -> usize
        ensures { result ≡ self.now.tasks }
    {
        self.collecting.len()
    }

    /// The slot that `head` was last asked for, 0 before that.
    pub fn clock(&self) -> u32
        ensures { result ≡ self.now.clock }
    {
        self.clock
    }

    /// Whether the die has stopped.
    pub fn ended(&self) -> bool
        ensures { result ≡ self.now.ended }
    {
        self.ended
    }

    /// The job or collection of a number, if there is one.
    pub fn job(&self, number: JobNo) -> Option<Job<'_>>
        ensures { slice_get self.now.jobs number ≡ result }
    {
        self.jobs.get(number)
    }

    /// Whether a task has a collection that is neither done nor waived. It isn't asked of a die that has stopped.
    pub fn is_collecting(&self, task: TaskNo) -> bool
        requires running { self.now.ended ≡ false }
        requires task { task < self.now.tasks }
        ensures { result ≡ is_collecting self.now.jobs task }
    {
        self.collecting[task.0 as usize]
    }

    /// The done job or collection with the greatest lateness, of equal ones the one completed first, and its lateness:
    /// its completion minus its deadline.
    pub fn worst(&self) -> Option<(JobNo, i64)>
        ensures worst { IfSome result (λ w. IsWorst self.now.jobs w.0) }
        ensures lateness { IfSome result (λ w. lateness_at self.now.jobs w.0 ≡ Some w.1) }
        ensures none { IfNone result (NothingDone self.now.jobs) }
    {
        match self.worst {
            Some(number) => Some((JobNo(number), self.jobs.at(JobNo(number)).lateness())),
            None => None,
        }
    }

    /// Whether this is the worst, which [`worst`](JobTable::worst) answers.
    pub fn is_worst(&self, number: JobNo) -> bool
        ensures { IsTrue result ↔ IsWorst self.now.jobs number }
    {
        match self.worst {
            Some(worst) => worst == number.0,
            None => false,
        }
    }

    /// Reserves memory for `arrivals` more jobs and collections with `operations` operations in all. Where it is
    /// reserved for as many already, this isn't refused. It lasts: each [`clear`](JobTable::clear) reserves as much
    /// again. Refused with `NoMemory`, nothing changes.
    pub fn reserve(&mut self, arrivals: u32, operations: u32) -> Result<(), Refusal>
        ensures ok { OnOk result (self.new ≡ record self.old {
          reserve = reserve_with arrivals operations self.old.reserve;
          lasting = reserve_with arrivals operations self.old.lasting;
        }) }
        ensures refused { FailsForMemory result }
        ensures succeeds { arrivals ≤ self.old.reserve.arrivals
            → operations ≤ self.old.reserve.operations → IsOk result }
        ensures err { OnErr result (self.new ≡ self.old) }
    {
        self.queues.reserve(arrivals)?;
        self.jobs.reserve(arrivals, operations)
    }

    /// For how many more jobs and collections memory is reserved.
    pub fn reserved_arrivals(&self) -> u32
        ensures { result ≡ self.now.reserve.arrivals }
    {
        self.jobs.reserved_arrivals()
    }

    /// For how many jobs and collections memory is reserved once all are taken away: for as many as it ever was.
    pub fn lasting_arrivals(&self) -> u32
        ensures { result ≡ self.now.lasting.arrivals }
    {
        self.jobs.lasting_arrivals()
    }

    /// For how many operations of these memory is reserved, in all.
    pub fn reserved_operations(&self) -> u64
        ensures { result ≡ self.now.reserve.operations }
    {
        self.jobs.reserved_operations()
    }

    /// Accepts a job of these operations, or a collection, under the next number, to run from its release on. There are
    /// fewer than `MAX_JOBS`; a job has at most `MAX_OPS` operations; a collection has none, and its task is one of the
    /// table's and has no pending one. All memory that it will ever need is taken here, first of what is reserved: where
    /// that covers it, this isn't refused. Refused with `NoMemory`, the table stays as it was.
    pub fn add(&mut self, head: JobHead, ops: &CountedOps) -> Result<JobNo, Refusal>
        requires running { self.old.ended ≡ false }
        requires few { length self.old.jobs < MAX_JOBS }
        requires few_ops { length ops.now ≤ MAX_OPS }
        requires collection { MayEnter self.old head ops.now }
        ensures ok { OnOk result (self.new ≡ with_job self.old (job_of head ops.now)) }
        ensures number { IfOk result (λ number. number ≡ length self.old.jobs) }
        ensures refused { FailsForMemory result }
        ensures succeeds { Covers self.old.reserve (length ops.now) → IsOk result }
        ensures err { OnErr result (self.new ≡ self.old) }
    {
        self.queues.reserve(1)?;
        let number = self.jobs.push(&head, ops)?;
        let JobHead { release, due, .. } = head;
        self.queues.enter(self.clock, number, release, due);
        mark(&mut self.collecting, head);
        Ok(JobNo(number))
    }

    /// The job or collection that has slot `now`, which is never before a slot asked for earlier: of those that are
    /// released by then and neither done nor waived the one with the earliest deadline, and of equal ones the one with
    /// the smallest number.
    pub fn head(&mut self, now: u32) -> Option<JobNo>
        requires running { self.old.ended ≡ false }
        requires forward { self.old.clock ≤ now }
        ensures clock { self.new ≡ record self.old { clock = now } }
        ensures head { IfSome result (λ number. IsHead self.new number) }
        ensures idle { IfNone result (NothingReady self.new) }
    {
        self.queues.release_by(&self.jobs, now);
        self.clock = now;
        match self.queues.first() {
            Some(number) => Some(JobNo(number)),
            None => None,
        }
    }

    /// The job or collection that would have slot `now` if these were waived, each of which would be the head once
    /// those before it were. It is the head after as many others as `waived` has. Nothing is waived.
    pub fn head_after(&mut self, now: u32, waived: &[Waived]) -> Option<JobNo>
        requires running { self.old.ended ≡ false }
        requires forward { self.old.clock ≤ now }
        requires heads { WereHeads (record self.old { clock = now }) waived.now }
        ensures clock { self.new ≡ record self.old { clock = now } }
        ensures head { IfSome result (λ number.
            IsHead (with_waived (record self.old { clock = now }) waived.now) number) }
        ensures idle { IfNone result
            (NothingReady (with_waived (record self.old { clock = now }) waived.now)) }
    {
        self.queues.release_by(&self.jobs, now);
        self.clock = now;
        match self.queues.first_after(waived.len()) {
            Some(number) => Some(JobNo(number)),
            None => None,
        }
    }

    /// Of the jobs and collections that are released after the slot that `head` was last asked for, and that are
    /// neither done nor waived, the one that is released first, and of equal ones the one with the smallest number.
    pub fn next_released(&self) -> Option<JobNo>
        requires running { self.now.ended ≡ false }
        ensures next { IfSome result (IsNextReleased self.now) }
        ensures none { IfNone result (NothingWaiting self.now) }
    {
        match self.queues.first_waiting() {
            Some(number) => Some(JobNo(number)),
            None => None,
        }
    }

    /// The head took one more slot, in which it carried no read of its own: a collection, or a job whose next operation
    /// is none.
    pub fn carry(&mut self, number: JobNo)
        requires running { self.old.ended ≡ false }
        requires head { IsHead self.old number }
        requires reads { reads_next_at self.old.jobs number ≡ false }
        requires room { work_at self.old.jobs number + 1 < 2 ^ 32 }
        ensures carried { self.new ≡ with_change self.old number with_one_more_slot }
        ensures head { IsHead self.new number }
    {
        self.jobs.carry(number);
    }

    /// The head took one more slot: its next operation, a read, gave these bytes.
    pub fn carry_read(&mut self, number: JobNo, bytes: PageData)
        requires running { self.old.ended ≡ false }
        requires head { IsHead self.old number }
        requires reads { reads_next_at self.old.jobs number ≡ true }
        requires room { work_at self.old.jobs number + 1 < 2 ^ 32 }
        ensures carried { self.new ≡ with_change self.old number (λ job.
            with_read bytes (with_one_more_slot job)) }
        ensures head { IsHead self.new number }
    {
        self.jobs.carry_read(number, bytes);
    }

    /// The head is done: `completion` is 1 + its last slot, and `given` counts the pages that a collection gave its
    /// task, 0 for a job.
    pub fn finish(&mut self, number: JobNo, completion: u32, given: u32)
        requires running { self.old.ended ≡ false }
        requires head { IsHead self.old number }
        ensures { self.new
            ≡ with_change self.old number (with_stage (Stage.Done completion given)) }
    {
        self.queues.drop_first();
        end_job(
            &mut self.jobs,
            &mut self.collecting,
            number,
            Stage::Done { completion, given },
        );
        self.worst = Some(worse_of(&self.jobs, self.worst, number.0));
    }

    /// The head is a collection that is waived, and gave its task `given` pages.
    pub fn waive(&mut self, number: JobNo, given: u32)
        requires running { self.old.ended ≡ false }
        requires head { IsHead self.old number }
        ensures { self.new ≡ with_change self.old number (with_stage (Stage.Waived given)) }
    {
        self.queues.drop_first();
        end_job(
            &mut self.jobs,
            &mut self.collecting,
            number,
            Stage::Waived { given },
        );
    }

    /// The die has stopped, and the waivers of its last slot are taken back. From now on the table is only read.
    pub fn stop(&mut self, waived: &[Waived])
        requires { AreWaived self.old.jobs waived.now }
        ensures stopped { self.new ≡ stopped_table self.old waived.now }
        ensures as_before { (jobs : List JobRecord) → WerePending jobs waived.now
            → self.old.jobs ≡ jobs_after_waivers jobs waived.now
            → self.new.jobs ≡ jobs }
    {
        self.ended = true;
        take_back(&mut self.jobs, waived);
    }
}
