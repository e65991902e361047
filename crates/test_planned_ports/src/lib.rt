//! Threads that share a die which keeps its plan: one that asks as fast as it can, beside tasks that ask when they may and
//! a clock, over many lives. And ports one by one: pages of their own, jobs and bursts, also for slots ahead, a die that is
//! closed and opened again, and one of which a port is missing.
//!
//! `plans` has the plans; `careful`, `eager`, `babblers` and `clocks` what a thread does with its port; `threads` has the
//! clock and a task in step, and `crowd` a clock that waits for nobody. `steps` plays a table at the ports of both tasks.
//! Dies lie in boxes, and one function has each die, its ports and all ways out: so the proofs are short.
#![tactic(auto)]

#[cfg(test)]
mod ahead;
#[cfg(test)]
mod babblers;
#[cfg(test)]
mod careful;
#[cfg(test)]
mod clocks;
#[cfg(test)]
mod crowd;
#[cfg(test)]
mod crowded;
#[cfg(test)]
mod dies;
#[cfg(test)]
mod eager;
#[cfg(test)]
mod heard;
#[cfg(test)]
mod isolated;
#[cfg(test)]
mod missing;
#[cfg(test)]
mod outcomes;
#[cfg(test)]
mod plans;
#[cfg(test)]
mod ports;
#[cfg(test)]
mod runs;
#[cfg(test)]
mod shared;
#[cfg(test)]
mod steps;
#[cfg(test)]
mod tables;
#[cfg(test)]
mod threads;
#[cfg(test)]
mod wrong;
