//! Dies on a part whose blocks fail, and whose power goes: at each call, with a block that fails shortly before it.
//!
//! `parts` has the part and its plan, `pages` what each page may read as, `lives` the lives of a die on its part, with
//! mounts between them, and `cuts` where the power goes.
#![tactic(auto)]

#[cfg(test)]
mod cuts;
#[cfg(test)]
mod lives;
#[cfg(test)]
mod pages;
#[cfg(test)]
mod parts;
#[cfg(test)]
mod wrongs;
