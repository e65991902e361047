//! Runs that are begun, fed batch by batch, and ended.

ghost use Rattle.std.specs.Prelude.{◌≡◌, ◌<◌, [], All, IfOk, IfSome, length, slice_get, map, IsSomeAnd};
ghost use Rattle.std.specs.List.{AllZip};
ghost use Rattle.slot_types.specs.Refusal.{FailsForMemory};
ghost use Rattle.die_service.specs.Runners.{HasRunAll, nothing_sent, with_batch};
ghost use Rattle.die_service.specs.Posts.{AreBegun, AreLinked, sent_by};

use crate::posts::{Post, Sender};
use crate::runner::Runner;
use crate::shares::Share;
use crate::workers::{Signals, gather, run_here, share_out};
use slot_types::Refusal;
use std::alloc::Global;
use std::marker::Model;
use std::sync::Wait;
use std::thread::{Scope, Threads};

/// A run by workers that last: each has some of the runners until the run is ended, and the thread that has begun it
/// sends them their batches. It has to be ended. Contracts see the runners as they were before all batches, and what was
/// sent to each.
pub struct Run<'e, M: Runner<B>, B: Drop> {
    senders: Vec<Sender<M, B>>,
    shares: Vec<Share<M, B>>,
    signals: &'e Signals,
}

impl<'e, M: Runner<B>, B: Drop> Model for Run<'e, M, B> {
    ghost use Rattle.std.specs.Prelude.{List, map};
    ghost use Rattle.die_service.specs.Runners.{SentTo};
    ghost use Rattle.die_service.specs.Posts.{sent_by};
    ghost use Rattle.die_service.specs.Shares.{AreSharedOut};

    ghost Value = { List (SentTo M B) };

    ghost view = { λ r. map sent_by r.senders.items };

    ghost invariant = { λ r. AreSharedOut M.runs r.senders.items r.shares.items };
}

/// Each runner with the rings of its batches. The only refusal is NoMemory.
fn posts_of<M: Runner<B>, B: Drop>(
    alloc: Global,
    runners: Vec<M>,
) -> Result<(Vec<Sender<M, B>>, Vec<Post<M, B>>), Refusal>
    requires { All M.begins runners.items }
    ensures begun { IfOk result (λ made. AreBegun M.runs runners.items made.0.items made.1.items) }
    ensures refused { FailsForMemory result }
{
    let mut senders = Vec::new(alloc);
    let mut posts = Vec::new(alloc);
    for runner in runners {
        let (sender, post) = Post::new(alloc, runner)?;
        senders.push(sender)?;
        posts.push(post)?;
    }
    Ok((senders, posts))
}

/// The runners of posts, once they have run all that was sent. The only refusal is NoMemory.
fn run_rests<M: Runner<B>, B: Drop>(
    alloc: Global,
    posts: Vec<Post<M, B>>,
    senders: Vec<Sender<M, B>>,
) -> Result<Vec<M>, Refusal>
    requires linked { AreLinked M.runs senders.items posts.items }
    ensures ok { IfOk result (λ ran.
        AllZip (HasRunAll M.runs) (map sent_by senders.items) ran.items) }
    ensures refused { FailsForMemory result }
{
    let mut ran = Vec::new(alloc);
    let mut senders = senders.into_iter();
    for post in posts {
        let Some(sender) = senders.next() else {
            unreachable!()
        };
        let mut post = post;
        let mut sender = sender;
        post.run_rest(alloc, &mut sender);
        ran.push(post.into_runner())?;
    }
    Ok(ran)
}

impl<'e, M: Runner<B>, B: Drop> Run<'e, M, B> {
    /// Begins a run: gives the runners to as many workers as these signals are of, as many to each as runners / workers,
    /// rounded up, in their order. Where there is none, or no thread can be made, this thread runs them, batch by batch.
    /// The only refusal is NoMemory; the runners are given up then.
    pub fn begin<'s, R: Threads + Wait + Sync>(
        scope: &Scope<'s, &'e ()>,
        rt: &'e R,
        alloc: Global,
        runners: Vec<M>,
        signals: &'e Signals,
    ) -> Result<Run<'e, M, B>, Refusal>
    where
        'e: 's,
        M: Send + 's,
        B: Send + 's,
        requires { All M.begins runners.items }
        ensures begun { IfOk result (λ run. run ≡ nothing_sent runners.items) }
        ensures refused { FailsForMemory result }
    {
        let (senders, posts) = posts_of(alloc, runners)?;
        match share_out(scope, rt, alloc, posts, signals) {
            Ok(shares) => Ok(Run {
                senders,
                shares,
                signals,
            }),
            Err(refusal) => {
                signals.end();
                Err(refusal)
            }
        }
    }

    /// How many runners there are.
    pub fn len(&self) -> usize
        ensures { result ≡ length self.now }
    {
        self.senders.len()
    }

    /// A batch that came back from the runner of a place, emptied, if one has.
    pub fn emptied(&mut self, place: usize) -> Option<B>
        requires { place < length self.old }
        ensures empty { IfSome result M.is_empty }
        ensures same { self.new ≡ self.old }
    {
        self.senders[place].emptied()
    }

    /// Sends the next batch to the runner of a place. It waits until there is room, where a worker has the runner.
    pub fn send<R: Wait>(&mut self, rt: &R, place: usize, batch: B)
        requires { IsSomeAnd (slice_get self.old place) (λ sent.
            M.may_follow sent.batches batch) }
        ensures { self.new ≡ with_batch place batch self.old }
    {
        let feeder = self.signals.feeder();
        self.senders[place].send(rt, batch, feeder);
    }

    /// Wakes the workers, and runs what was sent to the runners that no worker has: a batch of each.
    pub fn go_on(&mut self, alloc: Global)
        ensures { self.new ≡ self.old }
    {
        self.signals.wake();
        run_here(alloc, self.shares.as_mut_slice(), self.signals.feeder());
    }

    /// Ends the run: the runners, each of which has run all that was sent to it. The only refusal is NoMemory.
    pub fn end<R: Threads>(self, rt: &R, alloc: Global) -> Result<Vec<M>, Refusal>
        ensures ran { IfOk result (λ runners. AllZip (HasRunAll M.runs) self.entry runners.items) }
        ensures refused { FailsForMemory result }
    {
        let Run {
            senders,
            shares,
            signals,
        } = self;
        signals.end();
        let posts = gather(rt, alloc, shares)?;
        run_rests(alloc, posts, senders)
    }
}
