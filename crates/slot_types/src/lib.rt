//! The plain data that every crate of the store speaks of: plans, jobs, events, replies, refusals.
#![tactic(auto)]

mod acts;
mod events;
mod items;
mod lent_ops;
mod limits;
mod numbers;
mod op_arena;
mod op_kinds;
mod packed_ops;
mod pages;
mod plans;
mod refusals;
mod replies;
mod short_items;

pub use acts::Act;
pub use events::{Event, JobHead, Op, OpList};
pub use items::Items;
pub use lent_ops::{LentOps, OpCounts};
pub use limits::{
    MAX_BLOCKS, MAX_DIES, MAX_ERASE_SLOTS, MAX_JOBS, MAX_OPS, MAX_PAGES, MAX_PASSES, MAX_SLOT,
    MAX_TASKS, MAX_WORKERS, MIN_BLOCKS, MIN_PAGES, PAGE_BYTES,
};
pub use numbers::{JobNo, TaskNo};
pub use op_arena::OpArena;
pub use op_kinds::OpKind;
pub use packed_ops::PackedOps;
pub use pages::{PageData, Place};
pub use plans::{Caps, DiePlan, Shape, StorePlan, TaskTimes, Times, TimesList};
pub use refusals::{Cause, Refusal};
pub use replies::{Entry, Reads, Reply, SlotReply, Waived, WaivedList};
pub use short_items::ShortItems;
