//! The mount of a die after a loss of power: what is seen by hand, with the answers worked out from the rules, and by
//! chance, against the plainest look at all labels. And whole mounts, call by call, on a part in memory (`chips`): by hand,
//! and by chance (`sizes` has plans, `parts` parts with what each page holds), cut at each call and in chains.
#![tactic(auto)]

#[cfg(test)]
mod by_chance;
#[cfg(test)]
mod by_hand;
#[cfg(test)]
mod chips;
#[cfg(test)]
mod counts;
#[cfg(test)]
mod large;
#[cfg(test)]
mod mounts;
#[cfg(test)]
mod mounts_by_hand;
#[cfg(test)]
mod parts;
#[cfg(test)]
mod refusals;
#[cfg(test)]
mod refused_mounts;
#[cfg(test)]
mod samples;
#[cfg(test)]
mod sizes;
#[cfg(test)]
mod whole_mounts;
#[cfg(test)]
mod wrongs;
