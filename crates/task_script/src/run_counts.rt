//! What became of the rows of a script, and their counts.

ghost use Rattle.std.specs.Prelude.{◌≡◌, ℕ, ◌+◌, ◌<◌, ◌^◌, [], Some, get_or, length};
ghost use Rattle.task_script.specs.RunCounts.{by_number, capped, count_of, counted_with, first_by, kind_with, rows_in, sum_of_counts, joined_first};

use slot_types::Refusal;

/// What became of a row.
#[derive(Clone, Copy, PartialEq, Eq, Debug, Drop)]
pub struct RowEnd {
    /// The number of its record, the header being 1.
    pub line: u32,
    /// Why its die refused it, if it did.
    pub refusal: Option<Refusal>,
}

/// One more than the greatest number of a refusal.
pub const NUMBERS: usize = 25;

/// How many rows of a script were accepted and refused.
#[derive(Clone, Copy, PartialEq, Eq, Debug, Drop)]
pub struct RunCount {
    pub accepted: u64,
    pub refused: u64,
    /// Of the refused row of the smallest record the record's number, the header being 1, and the number of the
    /// refusal.
    pub first: Option<(u32, u8)>,
    /// By the number of a refusal, how many rows it refused; 4,294,967,295 where there are more.
    pub kinds: [u32; NUMBERS],
}

/// The first refused row, of an earlier one and this row.
fn first_by(end: &RowEnd, first: Option<(u32, u8)>) -> Option<(u32, u8)>
    ensures { result ≡ first_by end.now.line end.now.refusal first }
{
    let Some(refusal) = end.refusal else {
        return first;
    };
    match first {
        Some((line, _)) if line <= end.line => first,
        _ => Some((end.line, refusal.number())),
    }
}

/// The first refused row, of two that were so of different rows, the former of which come first.
fn joined_first(first: Option<(u32, u8)>, second: Option<(u32, u8)>) -> Option<(u32, u8)>
    ensures { result ≡ joined_first first second }
{
    match (first, second) {
        (Some((line, _)), Some((later, _))) if later < line => second,
        (Some(_), _) => first,
        (None, _) => second,
    }
}

/// Counts with a refused row more, by the number of its refusal.
fn with_one(kinds: [u32; NUMBERS], refusal: Refusal) -> [u32; NUMBERS]
    ensures long { length result ≡ 25 }
    ensures each { (number : ℕ) → number < 25
        → get_or result number 0 ≡ kind_with (Some refusal) kinds number }
{
    let mut kinds = kinds;
    let place = refusal.number() as usize;
    if place < NUMBERS {
        kinds[place] = kinds[place].saturating_add(1);
    }
    kinds
}

/// By the number of a refusal, how many rows it refused, with this row.
fn kinds_with(kinds: [u32; NUMBERS], refusal: Option<Refusal>) -> [u32; NUMBERS]
    ensures { result ≡ by_number (kind_with refusal kinds) }
{
    match refusal {
        Some(refusal) => with_one(kinds, refusal),
        None => kinds,
    }
}

/// By the number of a refusal, how many rows it refused, of those of two counts.
fn sum_of_kinds(kinds: [u32; NUMBERS], more: &[u32; NUMBERS]) -> [u32; NUMBERS]
    ensures { result
        ≡ by_number (λ number. capped (get_or kinds number 0 + get_or more.now number 0)) }
{
    let mut sum = kinds;
    for number in 0..NUMBERS {
        sum[number] = sum[number].saturating_add(more[number]);
    }
    sum
}

impl RunCount {
    /// No row was counted.
    #[tactic(auto, unfolding(crate::specs::RunCounts::by_number))]
    pub fn none() -> RunCount
        ensures { result ≡ count_of [] }
    {
        RunCount {
            accepted: 0,
            refused: 0,
            first: None,
            kinds: [0; NUMBERS],
        }
    }

    /// Counts a row.
    pub(crate) fn add(&mut self, end: RowEnd)
        requires few { rows_in self.old + 1 < 2 ^ 64 }
        ensures { self.new ≡ counted_with self.old end }
    {
        match end.refusal {
            None => self.accepted += 1,
            Some(_) => self.refused += 1,
        }
        self.first = first_by(&end, self.first);
        self.kinds = kinds_with(self.kinds, end.refusal);
    }

    /// Counts the rows of another count after these.
    pub(crate) fn add_all(&mut self, more: &RunCount)
        requires few { rows_in self.old + rows_in more.now < 2 ^ 64 }
        ensures { self.new ≡ sum_of_counts self.old more.now }
    {
        self.accepted += more.accepted;
        self.refused += more.refused;
        self.first = joined_first(self.first, more.first);
        self.kinds = sum_of_kinds(self.kinds, &more.kinds);
    }
}
