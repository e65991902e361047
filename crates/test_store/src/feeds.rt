//! Jobs as rows of a table, and the feeds that are made of them.

ghost use Rattle.std.specs.Prelude.{All, IfOk};
ghost use Rattle.die_service.specs.Runs.{AllArrive};

use die_service::{Feed, RunDie};
use flash_die::Nand;
use slot_types::{JobHead, LentOps, Op, Refusal, TaskNo};
use std::alloc::Global;

/// A job of one operation of task 0. It comes before the slot of its release.
#[derive(Clone, Copy)]
pub(crate) struct Job {
    pub(crate) release: u32,
    pub(crate) due: u32,
    pub(crate) op: Op,
}

// What a job asks, without its operation.
fn head_of(job: &Job) -> JobHead {
    JobHead {
        collects: false,
        task: TaskNo(0),
        release: job.release,
        due: job.due,
    }
}

// The feed of these jobs.
fn feed(alloc: Global, jobs: &[Job]) -> Result<Feed, Refusal>
    ensures { IfOk result AllArrive }
{
    let mut feed = Feed::new(alloc);
    for job in jobs {
        feed.push_lent(job.release, head_of(job), &LentOps::list(&[job.op]))?;
    }
    Ok(feed)
}

/// Adds these jobs to what comes next to a die that a run owns.
pub(crate) fn add_jobs<N: Nand>(die: &mut RunDie<N>, jobs: &[Job]) -> Result<(), Refusal> {
    for job in jobs {
        die.add(job.release, head_of(job), &LentOps::list(&[job.op]))?;
    }
    Ok(())
}

/// The feeds of three dies.
pub(crate) fn three(
    alloc: Global,
    first: &[Job],
    second: &[Job],
    third: &[Job],
) -> Result<Vec<Feed>, Refusal>
    ensures { IfOk result (λ feeds. All AllArrive feeds.items) }
{
    let mut feeds = Vec::with_capacity(alloc, 3)?;
    feeds.push_reserved(feed(alloc, first)?);
    feeds.push_reserved(feed(alloc, second)?);
    feeds.push_reserved(feed(alloc, third)?);
    Ok(feeds)
}

/// The feeds of five dies, none of which gets an event.
pub(crate) fn five_empty(alloc: Global) -> Result<Vec<Feed>, Refusal>
    ensures { IfOk result (λ feeds. All AllArrive feeds.items) }
{
    let mut feeds = Vec::with_capacity(alloc, 5)?;
    feeds.push_reserved(Feed::new(alloc));
    feeds.push_reserved(Feed::new(alloc));
    feeds.push_reserved(Feed::new(alloc));
    feeds.push_reserved(Feed::new(alloc));
    feeds.push_reserved(Feed::new(alloc));
    Ok(feeds)
}

/// The feeds of two dies.
pub(crate) fn both(alloc: Global, first: &[Job], second: &[Job]) -> Result<Vec<Feed>, Refusal>
    ensures { IfOk result (λ feeds. All AllArrive feeds.items) }
{
    let mut feeds = Vec::with_capacity(alloc, 2)?;
    feeds.push_reserved(feed(alloc, first)?);
    feeds.push_reserved(feed(alloc, second)?);
    Ok(feeds)
}
