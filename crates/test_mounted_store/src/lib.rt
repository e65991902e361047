//! A store of dies that begin on their parts: two whose power was cut, and one that is blank.
#![tactic(auto)]

#[cfg(test)]
mod cuts;
#[cfg(test)]
mod parts;
#[cfg(test)]
mod turns;
