//! Plans with deadlines and bursts.
//!
//! The values of `recorders` are those of a second reading of the demand, which goes through all numbers of slots;
//! `out_of_order` says which period a task's jobs fill first.
#![tactic(auto)]

#[cfg(test)]
mod out_of_order;
#[cfg(test)]
mod recorders;
