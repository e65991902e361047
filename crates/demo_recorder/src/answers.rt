//! What a task was answered: what was accepted, and all of it counted by cause.

use ongoing_die::{AskRefusal, AskStop, Taken};
use planned_ports::AskRefused;

/// An ask that was accepted: slots are those of the clock of all lives.
#[derive(Clone, Copy, Drop)]
pub(crate) struct Accepted {
    pub(crate) release: u64,
    pub(crate) due: u64,
    /// It waited for the life of its release.
    pub(crate) waited: bool,
}

/// What was accepted.
fn accepted_as(taken: Taken) -> Accepted {
    match taken {
        Taken::Enters { release, due, .. } => Accepted {
            release,
            due,
            waited: false,
        },
        Taken::Waits { release, due } => Accepted {
            release,
            due,
            waited: true,
        },
    }
}

/// What was accepted, unless the ask was refused.
pub(crate) fn accepted_in(answer: Result<Taken, AskRefused>) -> Option<Accepted> {
    match answer {
        Ok(taken) => Some(accepted_as(taken)),
        Err(_) => None,
    }
}

/// How often a task was answered how.
#[derive(Clone, Copy, Drop)]
pub(crate) struct Answers {
    pub(crate) accepted: u64,
    /// It had asked for all that its plan lets it have by then.
    pub(crate) too_soon: u64,
    /// An ask of its own waited for the next life already.
    pub(crate) waits_already: u64,
    /// It was refused for a cause that doesn't go by, so it asks no more.
    pub(crate) end: Option<AskRefused>,
}

pub(crate) const NONE_YET: Answers = Answers {
    accepted: 0,
    too_soon: 0,
    waits_already: 0,
    end: None,
};

impl Answers {
    pub(crate) fn note(&mut self, answer: &Result<Taken, AskRefused>) {
        match answer {
            Ok(_) => self.accepted = self.accepted.saturating_add(1),
            Err(AskRefused::Die(AskStop::Plan(AskRefusal::TooSoon { .. }))) => {
                self.too_soon = self.too_soon.saturating_add(1)
            }
            Err(AskRefused::Die(AskStop::WaitsAlready)) => {
                self.waits_already = self.waits_already.saturating_add(1)
            }
            Err(refused) => self.end = Some(*refused),
        }
    }

    /// How often it was refused what it may have later.
    pub(crate) fn refused(&self) -> u64 {
        self.too_soon.saturating_add(self.waits_already)
    }
}
