//! The numbers of a task's terms that are sought, one at a time.

ghost use Rattle.std.specs.Prelude.{◌≡◌};
ghost use Rattle.flashplan_terms_margins.specs.Changes.{with_number};

use demand_rules::TaskTerms;

/// A number of a task's terms.
#[derive(Clone, Copy, PartialEq, Eq, Debug, Drop)]
pub enum Number {
    Work,
    Writes,
    Period,
    Deadline,
    CollectDeadline,
}

/// Terms with one of their numbers changed.
pub fn with_number(which: Number, own: &TaskTerms, n: u32) -> TaskTerms
    ensures { result ≡ with_number which own.now n }
{
    match which {
        Number::Work => TaskTerms { work: n, ..*own },
        Number::Writes => TaskTerms { writes: n, ..*own },
        Number::Period => TaskTerms { period: n, ..*own },
        Number::Deadline => TaskTerms {
            deadline: n,
            ..*own
        },
        Number::CollectDeadline => TaskTerms {
            collect_deadline: n,
            ..*own
        },
    }
}
