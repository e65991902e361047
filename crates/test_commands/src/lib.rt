//! What no clause says of the program's commands, and needs types of its own: the order of files, readers and writers
//! that fail at a call, and words that are no text. What commands print is in the plays of `crates/test_plays`.
#![tactic(auto)]

#[cfg(test)]
mod command_line;
#[cfg(test)]
mod failing;
#[cfg(test)]
mod files;
#[cfg(test)]
mod printed;
#[cfg(test)]
mod terminal;
#[cfg(test)]
mod writers;
