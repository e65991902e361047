//! What is found on a die after a loss of power.
//!
//! Each program leaves a label in its cell: the logical page, and the number of the program. The definitions stand in
//! `specs/`, to be read in this order:
//!
//! - `Labels`: the labels along a log, from which number on they count, and what stands of them;
//! - `Seen`: what a mount may see of them, where the power went after a slot, or during one;
//! - `Mounted`: what a mount makes of what it sees: where each page lies, and what it holds;
//! - `Recovery`: what stands of a die that can be recovered, and what a mount does until another log may start;
//! - `Aside`: a part with one block more than the die has, which stands aside;
//! - `Losses`: a die's lives, where the power may go at the end of each;
//! - `Laws`: what a law speaks of.
//!
//! Each law is a function that does nothing, whose contract is the law.
#![tactic(auto)]

mod laws;
mod losses;

pub use laws::{
    a_mount_can_end, a_mount_can_lose_power, a_mount_ends, a_mount_finds_all,
    a_mount_finds_what_is_placed, a_mount_keeps_all, exact_keeps_labels, labels_are_of_programs,
    labels_show_pages, logs_can_be_recovered, starts_are_labelled, what_can_be_recovered_is_seen,
};
pub use losses::{
    a_mount_may_be_cut, a_mount_starts_a_log, a_part_shows_its_die, counts_of_erases_may_be_any,
    each_life_keeps_promises, labels_bear_what_was_written, losses_of_power_lose_nothing,
    next_lives_are_stocked, renewals_are_lives, untrimmed_logs_leave_no_old_labels,
};
