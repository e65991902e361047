//! A lock round a book of entries, with passes that know what they have seen of it.
//!
//! A [`Book`] is a sequential object that keeps a list of its accepted calls. [`Turned`] lets any number of threads use
//! one, each with a [`Pass`] of its own, one call a turn. A [`NotingBook`] also takes events whose parts are lent. The
//! clauses speak of what a pass knows, its [`View`]: the entries that it has seen are always the first of the book's
//! list, and of its own calls they are all.
//!
//! `look` and `join_pass` don't wait. `apply`, `note`, `ask`, `split_pass`, `out` and `close` may wait for the turn,
//! and nothing is claimed of how long: a take that is lost is tried again, after a yield while another pass has the
//! turn. No call but `new` takes memory, beyond what the book itself does. A [`NewLock`] is a lock that nobody has used
//! yet, and still gives its book back.
#![tactic(auto)]

mod book;
mod entry;
mod laws;
mod lock;
mod new_lock;
mod noting;
mod pass;
mod plays;
mod rule;
mod steps;
mod view;

pub use book::Book;
pub use entry::Entry;
pub use laws::{a_lent_event_is_entered_in_one_way, an_event_is_entered_in_one_way};
pub use lock::{Closing, Turned};
pub use new_lock::NewLock;
pub use noting::NotingBook;
pub use pass::Pass;
pub use view::View;
