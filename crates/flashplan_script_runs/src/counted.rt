//! How many rows a run refused, and with what.

ghost use Rattle.std.specs.Prelude.{◌≡◌};
ghost use Rattle.flashplan_script_runs.specs.Counted.{CountsRows, IsCountOf};

use crate::refused::RefusedRow;

/// One more than the greatest number of a refusal.
const NUMBERS: usize = 25;

/// How many rows were refused, and with what, and the first of them.
#[derive(Clone, Copy, PartialEq, Eq, Debug, Drop)]
pub struct RefusedRows {
    pub count: u32,
    /// The number of its record, the header being 1, and the number of its refusal.
    pub first: Option<(u32, u8)>,
    /// By the number of a refusal, how many rows it refused.
    pub kinds: [u32; NUMBERS],
}

impl RefusedRows {
    /// No row.
    pub const NONE: RefusedRows = RefusedRows {
        count: 0,
        first: None,
        kinds: [0; NUMBERS],
    };

    /// Adds a row, which stands after those that were added before.
    fn add(&mut self, row: &RefusedRow)
        ensures { IsCountOf row.now self.old self.new }
    {
        let number = row.refusal.number();
        self.count = self.count.saturating_add(1);
        if self.first.is_none() {
            self.first = Some((row.asker.line, number));
        }
        let place = number as usize;
        if place < NUMBERS {
            self.kinds[place] = self.kinds[place].saturating_add(1);
        }
    }

    /// How many rows these are, and with what they were refused.
    pub fn of(rows: &[RefusedRow]) -> RefusedRows
        ensures { CountsRows rows.now result }
    {
        let mut counts = RefusedRows::NONE;
        for row in rows {
            counts.add(row);
        }
        counts
    }
}
