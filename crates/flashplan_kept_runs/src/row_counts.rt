//! Rows that were refused or passed over.

use crate::refusals::RowRefusal;
use planned_log::AskRefusal;

/// How many kinds of refusals a row may get.
pub const KIND_COUNT: usize = 9;

/// The rows that were refused for one cause: how many, the number of the first one's record, the header being 1, and
/// why that one was.
#[derive(Clone, Copy, PartialEq, Eq, Debug, Drop)]
pub struct KindCount {
    pub count: u32,
    pub line: u32,
    pub first: RowRefusal,
}

/// How many rows were refused, and for what; and how many were passed over, since they ask for collections.
#[derive(Clone, Copy, PartialEq, Eq, Debug, Drop)]
pub struct RowCounts {
    /// The refused ones.
    pub count: u32,
    /// The number of the first one's record, and why that one was refused.
    pub first: Option<(u32, RowRefusal)>,
    /// By cause.
    pub kinds: [Option<KindCount>; KIND_COUNT],
    /// The rows of collections.
    pub passed_over: u32,
}

/// The place of a cause among all.
fn place_of(refusal: RowRefusal) -> usize {
    match refusal {
        RowRefusal::OtherTimes => 0,
        RowRefusal::Ask(AskRefusal::DieStopped) => 1,
        RowRefusal::Ask(AskRefusal::UnknownTask) => 2,
        RowRefusal::Ask(AskRefusal::EmptyJob) => 3,
        RowRefusal::Ask(AskRefusal::TooManyOps { .. }) => 4,
        RowRefusal::Ask(AskRefusal::BadPage { .. }) => 5,
        RowRefusal::Ask(AskRefusal::TooManyWrites { .. }) => 6,
        RowRefusal::Ask(AskRefusal::TooSoon { .. }) => 7,
        RowRefusal::Ask(AskRefusal::LifeEnd) => 8,
    }
}

/// One row more of a cause.
fn one_more(kind: Option<KindCount>, line: u32, refusal: RowRefusal) -> KindCount {
    match kind {
        None => KindCount {
            count: 1,
            line,
            first: refusal,
        },
        Some(kind) => KindCount {
            count: kind.count.saturating_add(1),
            line: kind.line,
            first: kind.first,
        },
    }
}

impl RowCounts {
    /// No row.
    pub const NONE: RowCounts = RowCounts {
        count: 0,
        first: None,
        kinds: [None; KIND_COUNT],
        passed_over: 0,
    };

    /// Adds the refused row of a record, which stands after those that were added before.
    pub fn add(&mut self, line: u32, refusal: RowRefusal) {
        self.count = self.count.saturating_add(1);
        if self.first.is_none() {
            self.first = Some((line, refusal));
        }
        if let Some(kind) = self.kinds.get_mut(place_of(refusal)) {
            *kind = Some(one_more(*kind, line, refusal));
        }
    }

    /// Adds the row of a collection.
    pub fn pass_over(&mut self) {
        self.passed_over = self.passed_over.saturating_add(1);
    }
}
