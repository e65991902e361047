//! The outcomes that a task has still to take.

ghost use Rattle.std.specs.Prelude.{◌≡◌, ◌≢◌, ◌≤◌, ◌+◌, ◌<◌, ◌&&◌, nat_le, nat_lt, [], ◌∷◌, ◌++◌, length, take, drop, slice_get, IsSomeAnd, IfOk, OnOk, OnErr};
ghost use Rattle.std.specs.VecDeque.{deque_capacity};
ghost use Rattle.task_outcomes.specs.Queues.{new_queue, counted, pages_in, with_outcome, without_first, without_oldest};
ghost use Rattle.task_outcomes.specs.Rings.{with_reads};

use crate::done_job::DoneJob;
use crate::task_outcome::TaskOutcome;
use demand_rules::TaskTerms;
use slot_types::{PageData, Reads};
use std::alloc::{AllocError, Global};
use std::collections::VecDeque;
use std::marker::Model;

/// The outcomes that a task has still to take, the first that was done first. Where one comes for which there is no room, the
/// oldest go, and are counted. All memory is taken with the queue.
#[derive(Drop)]
pub struct OutcomeQueue {
    pub(crate) jobs: VecDeque<DoneJob>,
    /// What their reads gave, one after the other.
    pub(crate) pages: VecDeque<PageData>,
    /// For how many jobs there is room, and for how many pages.
    pub(crate) room: usize,
    pub(crate) dropped: u64,
}

impl Model for OutcomeQueue {
    ghost use Rattle.std.specs.VecDeque.{deque_capacity};
    ghost use Rattle.task_outcomes.specs.Queues.{Queue};
    ghost use Rattle.task_outcomes.specs.Rings.{outcomes_in, IsRing};

    ghost Value = { Queue };

    ghost view = { λ q. record { room = q.room; kept = outcomes_in q.jobs.items q.pages.items; dropped = q.dropped } };

    ghost invariant = { λ q.
        IsRing q.jobs.items q.pages.items q.room (deque_capacity q.jobs) (deque_capacity q.pages) };
}

/// One more, where the count isn't at its end.
fn one_more(count: u64) -> u64
    ensures { result ≡ counted (count + 1) }
{
    if count < u64::MAX { count + 1 } else { count }
}

/// A copy of the first pages; of none it takes no memory.
fn first_pages(alloc: Global, pages: &VecDeque<PageData>, count: usize) -> Result<Reads, AllocError>
    requires enough { count ≤ length pages.now.items }
    ensures ok { IfOk result (λ copy. copy ≡ take count pages.now.items) }
    ensures some { OnErr result (count ≢ 0) }
{
    if count == 0 {
        return Ok(Reads::new(alloc));
    }
    let mut copy = Vec::with_capacity(alloc, count)?;
    for place in 0..count {
        copy.push_reserved(pages[place]);
    }
    Ok(Reads::from_vec(copy))
}

/// The first pages go.
fn drop_pages(pages: &mut VecDeque<PageData>, count: usize)
    ensures pages { pages.new.items ≡ drop count pages.old.items }
    ensures memory { deque_capacity pages.new ≡ deque_capacity pages.old }
{
    for _ in 0..count {
        let _ = pages.pop_front();
    }
}

/// These pages come last.
fn add_pages(pages: &mut VecDeque<PageData>, more: &[PageData])
    requires room { length pages.old.items + length more.now ≤ deque_capacity pages.old }
    ensures pages { pages.new.items ≡ pages.old.items ++ more.now }
    ensures memory { deque_capacity pages.new ≡ deque_capacity pages.old }
{
    for page in more {
        pages.push_back_reserved(*page);
    }
}

impl OutcomeQueue {
    /// A queue with nothing in it, and room for what the task may ask for in two periods.
    pub(crate) fn new(alloc: Global, own: &TaskTerms) -> Result<OutcomeQueue, AllocError>
        ensures { IfOk result (λ q. q ≡ new_queue own.now) }
    {
        let room = 2 * own.work as usize;
        let jobs = VecDeque::with_capacity(alloc, room)?;
        let pages = VecDeque::with_capacity(alloc, room)?;
        Ok(OutcomeQueue {
            jobs,
            pages,
            room,
            dropped: 0,
        })
    }

    /// How many outcomes there are to take.
    pub(crate) fn len(&self) -> usize
        ensures { result ≡ length self.now.kept }
    {
        self.jobs.len()
    }

    /// How many were dropped.
    pub(crate) fn dropped(&self) -> u64
        ensures { result ≡ self.now.dropped }
    {
        self.dropped
    }

    /// Whether there is room for one more, whose reads gave `reads` pages.
    fn has_room(&self, reads: usize) -> bool
        ensures room { result ≡ (nat_lt (length self.now.kept) self.now.room
            && nat_le (pages_in self.now.kept + reads) self.now.room) }
        ensures counts { self.now.dropped ≤ 18446744073709551615 }
    {
        let _dropped = self.dropped;
        self.jobs.len() < self.room && reads <= self.room - self.pages.len()
    }

    /// One that isn't kept is counted.
    fn count_dropped(&mut self)
        ensures { self.new ≡ record self.old { dropped = counted (self.old.dropped + 1) } }
    {
        self.dropped = one_more(self.dropped);
    }

    /// The oldest goes, if there is one.
    fn remove_first(&mut self)
        ensures { self.new ≡ without_first self.old }
    {
        let Some(job) = self.jobs.pop_front() else {
            return;
        };
        drop_pages(&mut self.pages, job.reads);
    }

    /// The oldest goes, and is counted.
    fn drop_first(&mut self)
        ensures { self.new ≡ without_oldest self.old }
    {
        self.remove_first();
        self.count_dropped();
    }

    /// One more comes last, for which there is room.
    fn add(&mut self, job: DoneJob, reads: &[PageData])
        requires reads { job.reads ≡ length reads.now }
        requires room { length self.old.kept < self.old.room }
        requires page_room { pages_in self.old.kept + length reads.now ≤ self.old.room }
        ensures { self.new ≡ record self.old { kept = self.old.kept ++ with_reads job reads.now ∷ [] } }
    {
        self.jobs.push_back_reserved(job);
        add_pages(&mut self.pages, reads);
    }

    /// One more comes last, with what its reads gave. The oldest go until there is room for it; and if there is none for it
    /// alone, it is dropped itself. It takes no memory.
    pub(crate) fn keep(&mut self, job: DoneJob, reads: &[PageData])
        requires reads { job.reads ≡ length reads.now }
        ensures { self.new ≡ with_outcome (with_reads job reads.now) self.old }
    {
        while !self.has_room(reads.len()) {
            if self.len() == 0 {
                self.count_dropped();
                return;
            }
            self.drop_first();
        }
        self.add(job, reads);
    }

    /// A copy of the first one, if there is one; of one whose reads gave nothing it takes no memory.
    fn first(&self, alloc: Global) -> Result<Option<TaskOutcome>, AllocError>
        ensures ok { IfOk result (λ first. slice_get self.now.kept 0 ≡ first) }
        ensures gave { OnErr result (IsSomeAnd (slice_get self.now.kept 0) (λ o. o.reads ≢ [])) }
    {
        let Some(first) = self.jobs.front() else {
            return Ok(None);
        };
        let job = *first;
        let reads = first_pages(alloc, &self.pages, job.reads)?;
        Ok(Some(TaskOutcome {
            task: job.task,
            life: job.life,
            job: job.job,
            release: job.release,
            due: job.due,
            completion: job.completion,
            lateness: job.lateness,
            reads,
        }))
    }

    /// Takes the first one. Where memory is refused for what its reads gave, it stays; of none no memory is taken.
    pub(crate) fn take(&mut self, alloc: Global) -> Result<Option<TaskOutcome>, AllocError>
        ensures ok { IfOk result (λ first. slice_get self.old.kept 0 ≡ first) }
        ensures left { OnOk result (self.new ≡ without_first self.old) }
        ensures gave { OnErr result (IsSomeAnd (slice_get self.old.kept 0) (λ o. o.reads ≢ [])) }
        ensures refused { OnErr result (self.new ≡ self.old) }
    {
        let first = self.first(alloc)?;
        self.remove_first();
        Ok(first)
    }
}
