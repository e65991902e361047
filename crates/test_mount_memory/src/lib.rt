//! Mounts that find no memory: their part is as it was, and may be mounted again.
//!
//! `parts` has the part and its plan, `dies` what a die does on it, `cells` what a part had, and `refused` the mounts.
#![tactic(auto)]

#[cfg(test)]
mod cells;
#[cfg(test)]
mod dies;
#[cfg(test)]
mod parts;
#[cfg(test)]
mod refused;
#[cfg(test)]
mod wrongs;
