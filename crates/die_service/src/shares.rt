//! Some runners of a run, which one worker has.

use crate::posts::Post;
use crate::runner::Runner;
use std::snapshot::Snapshot;
use std::thread::{Promise, PromisedHandle, Threads};

/// That a worker gives back the runners that it was given.
#[derive(Drop)]
pub(crate) struct SamePosts<M: Runner<B>, B: Drop>(pub(crate) Snapshot<Vec<Post<M, B>>>);

impl<M: Runner<B>, B: Drop> Promise<Vec<Post<M, B>>> for SamePosts<M, B> {
    ghost use Rattle.std.specs.List.{AllZip};
    ghost use Rattle.die_service.specs.Posts.{IsSamePost};

    ghost kept_by = { λ p posts. AllZip (IsSamePost M.runs) p.0.value.items posts.items };
}

/// Some runners of a run.
#[derive(Drop)]
pub(crate) enum Share<M: Runner<B>, B: Drop> {
    /// The thread that feeds the run runs them, batch by batch.
    Here(Vec<Post<M, B>>),
    /// A worker runs them.
    There(PromisedHandle<Vec<Post<M, B>>, SamePosts<M, B>>),
}

impl<M: Runner<B>, B: Drop> Share<M, B> {
    ghost use Rattle.std.specs.List.{AllZip};
    ghost use Rattle.die_service.specs.Posts.{IsSamePost};
    ghost use Rattle.die_service.specs.Shares.{IsShareOf};

    /// The runners, once their worker has ended.
    pub(crate) fn into_posts<R: Threads>(self, rt: &R) -> Vec<Post<M, B>>
        ensures { (posts : _) → IsShareOf M.runs posts self → AllZip (IsSamePost M.runs) posts result.items }
    {
        match self {
            Share::Here(posts) => posts,
            Share::There(handle) => handle.join(rt),
        }
    }
}
