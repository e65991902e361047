//! The log of a die's events, and the table of its jobs, by themselves: callers and erases that no history of one die has,
//! what is read from any place on, memory that is reserved for jobs, and a table beside lists of each job; and more
//! waivers than a slot has.
#![tactic(auto)]

#[cfg(test)]
mod job_table_twin;
#[cfg(test)]
mod job_tables;
#[cfg(test)]
mod lists;
#[cfg(test)]
mod log_readings;
#[cfg(test)]
mod logs;
