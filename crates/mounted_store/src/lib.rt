//! A store of dies that begin on their parts.
#![tactic(auto)]

mod stores;

pub use stores::store_of;
