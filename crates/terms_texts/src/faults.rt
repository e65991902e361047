//! Why a text makes no plan, and where.

ghost use Rattle.std.specs.Prelude.{◌≡◌};
ghost use Rattle.terms_texts.specs.Refusing.{refusal_of};

use crate::keys::Key;
use demand_rules::TermsFault;
use slot_types::{Cause, Refusal};

/// A table of a plan's text.
#[derive(Clone, Copy, PartialEq, Eq, Debug, Drop)]
pub enum TableName {
    Top,
    /// The `[[task]]` of this place in the text, the first being 0.
    Task { task: usize },
}

/// Where in a text a fault lies.
#[derive(Clone, Copy, PartialEq, Eq, Debug, Drop)]
pub enum Place {
    /// The text as a whole: it is too long, or no TOML.
    Whole,
    /// A table, which has a key that no plan has there.
    In { table: TableName },
    /// A key of a table: it is missing, or has another value than it may have; or it is `version`.
    At { table: TableName, key: Key },
}

/// Why a die may not be used as it is planned.
#[derive(Clone, Copy, PartialEq, Eq, Debug, Drop)]
pub enum DieFault {
    /// A number that plans without terms have, too, is out of its limits, or the die is too small, as
    /// [`bound`](plan_rules::bound) says.
    Bound,
    /// A number of a task's terms is out of its limits, or a test isn't passed, as
    /// [`terms_test`](demand_rules::terms_test) says. Tasks are counted by die.
    Terms(TermsFault),
}

/// Why a text makes no plan.
#[derive(Clone, Copy, PartialEq, Eq, Debug, Drop)]
pub enum TermsRefusal {
    /// NoMemory or ReadFault: no fault of the text.
    Outside(Refusal),
    /// The first fault of the text.
    Text { cause: Cause, place: Place },
    /// Dies, blocks, pages or erase slots out of their limits.
    BadShape,
    /// The first task, counted from 0 in the order of the text, that names a die that isn't there.
    NoDie { task: usize },
    /// The first die that may not be used, and why.
    Die { die: u32, fault: DieFault },
}

impl TermsRefusal {
    /// The refusal without its place: that of a plan without terms for the like of it.
    pub fn refusal(self) -> Refusal
        ensures { result ≡ refusal_of self }
    {
        match self {
            TermsRefusal::Outside(refusal) => refusal,
            TermsRefusal::Text { cause, .. } => Refusal::PlanText { cause },
            TermsRefusal::BadShape => Refusal::BadShape,
            TermsRefusal::NoDie { .. } | TermsRefusal::Die { .. } => Refusal::BadPlan,
        }
    }
}

impl From<Refusal> for TermsRefusal {
    ghost use Rattle.std.specs.Prelude.{◌≡◌};
    ghost use Rattle.terms_texts.specs.declared.faults.TermsRefusal.TheVariants.{Outside};

    ghost from_gives = { λ refusal made. made ≡ Outside refusal };

    fn from(refusal: Refusal) -> Self {
        TermsRefusal::Outside(refusal)
    }
}
