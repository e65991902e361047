//! What no clause says of reading, running and writing texts, and needs types of its own: readers and writers that
//! fail, are interrupted or have no end, refused memory, and values that no command prints. What texts mean is in the
//! plays of `crates/test_plays`. Expected answers are worked out by hand.
#![tactic(auto)]

#[cfg(test)]
mod allocations;
#[cfg(test)]
mod answers;
#[cfg(test)]
mod audits;
#[cfg(test)]
mod bounds;
#[cfg(test)]
mod faults;
#[cfg(test)]
mod interrupted;
#[cfg(test)]
mod long_scripts;
#[cfg(test)]
mod plan_bounds;
#[cfg(test)]
mod reports;
#[cfg(test)]
mod runs;
