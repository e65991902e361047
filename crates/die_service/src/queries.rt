//! What may be asked of a die in its turn, and what it answers. Nothing is changed by it.

use late_cert::Certificate;
use slot_core::{Outcome, Worst};
use slot_types::{JobNo, Refusal};

/// A question.
#[derive(Drop)]
pub enum Query {
    /// What became of a job or collection.
    Outcome(JobNo),
    /// The worst job.
    Worst,
    /// The certificate of the worst job.
    Certificate,
    /// The present slot.
    Now,
}

/// The answer to the question of the same name.
#[derive(Drop)]
pub enum Answer {
    Outcome(Result<Outcome, Refusal>),
    Worst(Option<Worst>),
    Certificate(Result<Option<Certificate>, Refusal>),
    Now(u32),
}
