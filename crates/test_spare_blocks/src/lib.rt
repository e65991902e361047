//! Dies on a part whose blocks fail, one after another: at each call of the part in turn, at two, by chance.
//!
//! `parts` has the devices and `kinds` the dies, each of which writes and reads pages all the time; `pages` has what each
//! page is to read as, its last finished write; `played` watches a die slot by slot, until a slot is refused. `stepped`
//! has the table that a driver keeps.
#![tactic(auto)]

#[cfg(test)]
mod by_chance;
#[cfg(test)]
mod failing_calls;
#[cfg(test)]
mod kinds;
#[cfg(test)]
mod pages;
#[cfg(test)]
mod parts;
#[cfg(test)]
mod played;
#[cfg(test)]
mod stepped;
#[cfg(test)]
mod wrongs;
