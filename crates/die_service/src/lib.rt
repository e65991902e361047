//! The store: dies that any number of threads use, each die behind a lock of its own.
//!
//! A [`Store`] has its [`Die`]s, and a caller uses one with a [`DiePass`] of that die. The clauses speak of what a pass
//! has seen of its die, the accepted calls from the first: they are an exact log from the die's start, they begin the
//! list of calls that the die has, and of the pass's own calls they are all. All that is promised of a die's log is
//! promised of what each pass has seen ([`promises`]).
//!
//! [`run_slots`] runs the dies of a store by workers, each die with a pass and a [`Feed`] of events that come by its
//! clock, and says what was asked of each in which order, and what came of it. A [`Gate`] is called around each slot.
//! So does [`run_batches`], each die for slots of its own that begin where an earlier run ended: a run may be made in
//! parts.
//!
//! A store goes on: the dies that [`close`] gives back are renewed by [`renew_each`], and [`Store::reopen`] makes a
//! store of them, with new passes.
//!
//! `look` and `join_pass` don't wait. The other calls of a die, [`close`], [`run_slots`] and [`run_batches`] may wait
//! for the die's turn, and nothing is claimed of how long.
#![tactic(auto)]

mod book;
mod closing;
mod courses;
mod die;
mod drivers;
mod ends;
mod feeds;
mod gate;
mod laws;
mod long_runs;
mod opening;
mod owned_dies;
mod pass_works;
mod posts;
mod promised;
mod queries;
mod refused;
mod renewing;
mod run_dies;
mod runner;
mod runs;
mod shares;
mod store;
mod work;
mod worked;
mod workers;

pub use closing::{StillOpen, close};
pub use die::{Die, DiePass};
pub use ends::{DieEnd, DieEnds, RefusedEvent, RefusedList};
pub use feeds::{Arrival, Feed, FeedItem};
pub use gate::{FreeGate, Gate};
pub use laws::a_run_alone_has_one_answer;
pub use long_runs::Run;
pub use promised::{planned_feeds_go_as_planned, promises, seen_keeps_promises};
pub use refused::RefusedAt;
pub use renewing::{NotRenewed, renew_each};
pub use run_dies::RunDie;
pub use runner::Runner;
pub use runs::run_slots;
pub use store::{StillClosed, Store};
pub use workers::Signals;
