//! The first window that has more than a limit, by one that slides over jobs whose slots rise.

ghost use Rattle.std.specs.Prelude.{◌≡◌, ℕ, ◌<◌, ◌≤◌, length, IsNone, IfSome};
ghost use Rattle.std.specs.List.Sorted.{IsNonDecreasingBy};
ghost use Rattle.demand_keeping.specs.BySlot.{HaveRoom, IsFirstAbove, own};
ghost use Rattle.demand_keeping.specs.Sliding.{AreNear, IsSliding};

use crate::windows::{Counted, Limit, start_with};

/// A window that slides over the jobs: it begins after those before `tail`, and ends with the last one looked at.
#[derive(Clone, Copy)]
pub(crate) struct Sliding {
    tail: usize,
    sum: usize,
}

// What is counted of a job, if it is one of the first `seen` events.
fn amount_of(job: &Counted, seen: usize) -> usize
    ensures { result ≡ own seen job.now }
{
    if job.index < seen { job.amount } else { 0 }
}

// The window with the jobs left out that aren't in one with the job at `head`.
fn slid(of: Limit, jobs: &[Counted], seen: usize, head: usize, window: Sliding) -> Sliding
    requires within { head < length jobs.now }
    requires rising { IsNonDecreasingBy (λ job. job.slot) jobs.now }
    requires sliding { IsSliding of.period of.limit seen jobs.now head window }
    ensures sliding { IsSliding of.period of.limit seen jobs.now head result }
    ensures near { AreNear of.period jobs.now result.tail head }
{
    let job = &jobs[head];
    let mut next = window;
    while next.tail < head {
        let left = &jobs[next.tail];
        if u64::from(job.slot) < u64::from(left.slot) + u64::from(of.period) {
            return next;
        }
        next.sum -= amount_of(left, seen);
        next.tail += 1;
    }
    next
}

/// Where the first window begins that has more than the limit with the first `seen` events, if there is one. It takes time
/// linear in the jobs.
pub(crate) fn first_above(of: Limit, jobs: &[Counted], seen: usize) -> Option<u32>
    requires some { 1 ≤ of.period }
    requires rising { IsNonDecreasingBy (λ job. job.slot) jobs.now }
    ensures none { IsNone result → HaveRoom of.period of.limit seen jobs.now }
    ensures some { IfSome result (IsFirstAbove of.period of.limit seen jobs.now) }
{
    let mut window = Sliding { tail: 0, sum: 0 };
    for head in 0..jobs.len() {
        let job = &jobs[head];
        window = slid(of, jobs, seen, head, window);
        let amount = amount_of(job, seen);
        if amount > of.limit as usize - window.sum {
            return Some(start_with(of, job.slot));
        }
        window.sum += amount;
    }
    None
}
