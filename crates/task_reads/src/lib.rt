//! What a task reads back depends on its own asks alone, of the pages that no other task writes or trims: definitions, and laws
//! about them, apart from any body.
//!
//! - `Asked`: a task's jobs in a log, what they asked for, and what that leaves on a page;
//! - `OwnPages`: pages that are a task's own; two logs in which it asked for the same;
//! - `Runs`: two runs that agree on their slots and on one task's asks;
//! - `Lives`: two dies, life after life, of which one task sees the same;
//! - `GoingOn`: two dies that begin their lives themselves.
//!
//! Each law is a function that does nothing, whose contract is the law.
#![tactic(auto)]

mod laws;

pub use laws::{
    lives_read_alike, ongoing_dies_read_alike, own_pages_stand_as_asked, runs_read_alike,
    tasks_are_served_in_order, tasks_read_for_their_own_asks,
};
