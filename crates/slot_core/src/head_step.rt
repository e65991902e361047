//! What a slot's head did.

use slot_types::Act;

/// An act, whether it was the last of its job or collection, and how many pages a collection gave its task then.
#[derive(Clone, Copy, PartialEq, Eq, Debug, Drop)]
pub struct HeadStep {
    pub act: Act,
    pub last: bool,
    pub given: u32,
}
