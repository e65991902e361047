//! Plain flash translation layers, which run the jobs of a script as the store's dies do, on the same blocks and slots, but
//! without tokens, collectors or deadlines of collections: to compare the store with.
//!
//! Blocks, cells, programs, erases and the choice of a victim are those of docs/RULES.md; a victim has a stale page. A read, a
//! program, a trim and one part of an erase take a slot each, and one collection runs at a time. Nothing is proved of what a
//! layer does, but that it ends: each read is looked at as it is carried out, and each page at the end.
#![tactic(auto)]

mod cells;
mod collection;
mod lists;
mod load;
mod plays;
mod policy;

pub use load::{Load, PlainJob};
pub use plays::{Fault, Marks, Played, play};
pub use policy::Policy;
