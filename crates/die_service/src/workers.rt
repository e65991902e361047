//! Workers that last: threads, each of which has runners of its own for a whole run.

ghost use Rattle.std.specs.Prelude.{IfOk};
ghost use Rattle.std.specs.List.{AllZip};
ghost use Rattle.slot_types.specs.Refusal.{FailsForMemory};
ghost use Rattle.die_service.specs.Posts.{IsSamePost};
ghost use Rattle.die_service.specs.Shares.{AreSharesOf, IsShareOf, StaysShare};

use crate::posts::Post;
use crate::runner::Runner;
use crate::shares::{SamePosts, Share};
use slot_types::Refusal;
use std::alloc::Global;
use std::snapshot::Snapshot;
use std::sync::Wait;
use std::sync::atomic::{AtomicBool, Ordering};
use std::thread::{Parker, Scope, Threads};

/// What the thread that feeds a run tells a worker.
#[derive(Drop)]
struct Signal {
    parker: Parker,
    ended: AtomicBool,
}

impl Signal {
    fn new() -> Signal {
        Signal {
            parker: Parker::new(),
            ended: AtomicBool::new(false),
        }
    }

    /// Tells the worker that all batches were sent.
    fn end(&self) {
        self.ended.store(true, Ordering::SeqCst);
        self.parker.unpark();
    }
}

/// By what a run's workers and the thread that feeds it wake each other.
#[derive(Drop)]
pub struct Signals {
    workers: Vec<Signal>,
    feeder: Parker,
}

impl Signals {
    /// Those of `workers` workers. With none, the thread that feeds a run runs all of it. The only refusal is NoMemory.
    pub fn new(alloc: Global, workers: u32) -> Result<Signals, Refusal>
        ensures { FailsForMemory result }
    {
        let mut signals = Vec::new(alloc);
        for _ in 0..workers {
            signals.push(Signal::new())?;
        }
        Ok(Signals {
            workers: signals,
            feeder: Parker::new(),
        })
    }

    /// Where the thread that feeds the run waits for room.
    pub(crate) fn feeder(&self) -> &Parker {
        &self.feeder
    }

    /// Tells all workers that batches were sent.
    pub(crate) fn wake(&self) {
        for signal in &self.workers {
            signal.parker.unpark();
        }
    }

    /// Tells all workers that all batches were sent.
    pub(crate) fn end(&self) {
        for signal in &self.workers {
            signal.end();
        }
    }
}

/// Runs the next batch of each of these runners to which one was sent, and answers whether there was one. The thread that
/// feeds the run waits for room on this parker.
fn run_arrived<M: Runner<B>, B: Drop>(
    alloc: Global,
    posts: &mut [Post<M, B>],
    feeder: &Parker,
) -> bool
    ensures { AllZip (IsSamePost M.runs) posts.old posts.new }
{
    let mut any = false;
    for post in posts.iter_mut() {
        if post.run_next(alloc, feeder) {
            any = true;
        }
    }
    any
}

/// Runs the batches of these runners as they arrive, until all were sent.
fn work<M: Runner<B>, B: Drop, R: Wait>(
    rt: &R,
    alloc: Global,
    posts: Vec<Post<M, B>>,
    signal: &Signal,
    feeder: &Parker,
) -> Vec<Post<M, B>>
    ensures { AllZip (IsSamePost M.runs) posts.items result.items }
{
    let mut posts = posts;
    for _ in rt.forever() {
        // The end comes after all that was sent, so that the look that follows finds it.
        let ended = signal.ended.load(Ordering::SeqCst);
        if run_arrived(alloc, posts.as_mut_slice(), feeder) {
            continue;
        }
        if ended {
            return posts;
        }
        signal.parker.park(rt);
    }
    unreachable!()
}

/// Starts a worker for these runners, to which nothing was sent yet. Where no thread can be made, they stay here.
fn start<'s, 'e: 's, M: Runner<B> + Send + 's, B: Send + Drop + 's, R: Threads + Wait + Sync>(
    scope: &Scope<'s, &'e ()>,
    rt: &'e R,
    alloc: Global,
    posts: Vec<Post<M, B>>,
    signal: &'e Signal,
    feeder: &'e Parker,
) -> Share<M, B>
    ensures { IsShareOf M.runs posts.items result }
{
    let given = SamePosts(Snapshot::of(&posts));
    let run = move || -> Vec<Post<M, B>>
        ensures { AllZip (IsSamePost M.runs) posts.items result.items }
    { work(rt, alloc, posts, signal, feeder) };
    match scope.spawn_with(given, run) {
        Ok(handle) => Share::There(handle),
        Err(refused) => {
            signal.end();
            Share::Here((refused.value)())
        }
    }
}

/// Gives runners to workers, as many to each as runners / workers, rounded up, in their order; where there is no worker,
/// they stay here. The only refusal is NoMemory. Workers that were started, also then, wait until their signals say that
/// all was sent.
pub(crate) fn share_out<
    's,
    'e: 's,
    M: Runner<B> + Send + 's,
    B: Send + Drop + 's,
    R: Threads + Wait + Sync,
>(
    scope: &Scope<'s, &'e ()>,
    rt: &'e R,
    alloc: Global,
    posts: Vec<Post<M, B>>,
    signals: &'e Signals,
) -> Result<Vec<Share<M, B>>, Refusal>
    ensures ok { IfOk result (λ shares. AreSharesOf M.runs posts.items shares.items) }
    ensures refused { FailsForMemory result }
{
    let count = signals.workers.len();
    let size = posts.len().div_ceil(count.max(1));
    let mut shares = Vec::with_capacity(alloc, count + 1)?;
    let mut left = posts;
    for signal in &signals.workers {
        if left.is_empty() {
            break;
        }
        let later = left.split_off(size.min(left.len()))?;
        shares.push(start(scope, rt, alloc, left, signal, &signals.feeder))?;
        left = later;
    }
    shares.push(Share::Here(left))?;
    Ok(shares)
}

/// Runs the next batch of each runner that is here.
pub(crate) fn run_here<M: Runner<B>, B: Drop>(
    alloc: Global,
    shares: &mut [Share<M, B>],
    feeder: &Parker,
)
    ensures { AllZip (StaysShare M.runs) shares.old shares.new }
{
    for share in shares.iter_mut() {
        if let Share::Here(posts) = share {
            run_arrived(alloc, posts.as_mut_slice(), feeder);
        }
    }
}

/// All runners, once all workers have ended. The only refusal is NoMemory.
pub(crate) fn gather<M: Runner<B>, B: Drop, R: Threads>(
    rt: &R,
    alloc: Global,
    shares: Vec<Share<M, B>>,
) -> Result<Vec<Post<M, B>>, Refusal>
    ensures ok { IfOk result (λ all.
        (posts : _) → AreSharesOf M.runs posts shares.items → AllZip (IsSamePost M.runs) posts all.items) }
    ensures refused { FailsForMemory result }
{
    let mut all = Vec::new(alloc);
    for share in shares {
        let mut posts = share.into_posts(rt);
        all.append(&mut posts)?;
    }
    Ok(all)
}
