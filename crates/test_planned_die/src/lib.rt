//! Plays of a die that keeps its plan itself: two tasks, of which each is answered by its own asks alone.
//!
//! What rows of a script show of it in one life is in plays of `flashplan run --keep` (`planned_dies.txt` of
//! test_plays). Here are bursts, renewals, faults, and dies that go on by themselves.
//!
//! `plans` has the plans and `steps` the words of a test; `played` carries a step out. What is wanted is worked out from
//! the rules (planned_log's README.md).
#![tactic(auto)]

#[cfg(test)]
mod again;
#[cfg(test)]
mod asking_ahead;
#[cfg(test)]
mod bursts;
#[cfg(test)]
mod dies;
#[cfg(test)]
mod faults;
#[cfg(test)]
mod going_on;
#[cfg(test)]
mod going_on_bursts;
#[cfg(test)]
mod lives;
#[cfg(test)]
mod ongoing_dies;
#[cfg(test)]
mod ongoing_played;
#[cfg(test)]
mod ongoing_steps;
#[cfg(test)]
mod plans;
#[cfg(test)]
mod played;
#[cfg(test)]
mod said;
#[cfg(test)]
mod shut_dies;
#[cfg(test)]
mod shut_plays;
#[cfg(test)]
mod shutting;
#[cfg(test)]
mod steps;
