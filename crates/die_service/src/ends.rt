//! What came of a run on a die.

use crate::refused::RefusedAt;
use slot_types::Items;

/// An event of a feed that its die refused.
#[derive(Clone, Copy, PartialEq, Eq, Debug, Drop)]
pub struct RefusedEvent {
    /// Its place in the feed, from 0.
    pub place: usize,
    pub refused: RefusedAt,
}

/// The refused events of a feed, in their order.
pub type RefusedList = Items<RefusedEvent>;

/// What came of a run on a die.
#[derive(PartialEq, Eq, Debug, Drop)]
pub struct DieEnd {
    /// How many slots were carried out.
    pub slots: u32,
    pub refused: RefusedList,
    /// Why a slot was refused, which ended the run on this die.
    pub stop: Option<RefusedAt>,
}

/// What came of a run, die by die.
pub type DieEnds = Items<DieEnd>;
