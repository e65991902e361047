//! A store at work: dies behind their locks, what threads see of them, and runs by workers.
//!
//! Read in this order: `steps` has the words of a test of calls, `plans` and `made` the stores that tests are played
//! on, and `stores` the first tests. A test fails as `said` says. `played` carries a step out, `dies` a table on a die
//! of a store, and `closing` tells what becomes of the store.
//!
//! A test of runs is a table of courses: `feeds` has the jobs of a die, `courses` how its run has to end. `runs`,
//! `dealt` and `gated` have the tests, with the devices and gates of `held` and `noted`. `scarce` is for where memory
//! is refused. `lives` has stores that are opened again, and `listed` feeds as lists.
#![tactic(auto)]

#[cfg(test)]
mod again;
#[cfg(test)]
mod closing;
#[cfg(test)]
mod courses;
#[cfg(test)]
mod dealt;
#[cfg(test)]
mod dies;
#[cfg(test)]
mod feeds;
#[cfg(test)]
mod gated;
#[cfg(test)]
mod held;
#[cfg(test)]
mod listed;
#[cfg(test)]
mod lives;
#[cfg(test)]
mod made;
#[cfg(test)]
mod noted;
#[cfg(test)]
mod passes;
#[cfg(test)]
mod plans;
#[cfg(test)]
mod played;
#[cfg(test)]
mod runs;
#[cfg(test)]
mod said;
#[cfg(test)]
mod scarce;
#[cfg(test)]
mod steps;
#[cfg(test)]
mod stores;
