//! Why the recorder stops early.

ghost use Rattle.std.specs.Prelude.{◌≡◌, None, Ok, IfOk};

use ongoing_die::OngoingRefusal;
use slot_types::Refusal;
use std::alloc::{AllocError, Global};
use std::fmt;
use std::fmt::{Display, Formatter, Write};

/// Why the recorder stops early.
#[derive(Clone, Copy, Drop)]
pub(crate) enum Stop {
    Refused(Refusal),
    /// No die is made.
    NoDie(OngoingRefusal),
    /// A die isn't opened.
    NotOpened,
    /// A port is missing.
    NoPort,
    /// A die isn't closed.
    NotClosed(Refusal),
    /// What a page holds can't be read.
    NotRead,
}

impl From<Refusal> for Stop {
    ghost use Rattle.std.specs.Prelude.{◌≡◌};
    ghost use Rattle.demo_recorder.specs.declared.stops.Stop.TheVariants.{Refused};

    ghost from_gives = { λ refusal stop. stop ≡ Refused refusal };

    fn from(refusal: Refusal) -> Stop {
        Stop::Refused(refusal)
    }
}

impl From<AllocError> for Stop {
    fn from(_: AllocError) -> Stop {
        Stop::Refused(Refusal::NoMemory)
    }
}

impl Display for Stop {
    ghost output = { λ _. None };

    fn fmt<W: Write>(&self, f: &mut Formatter<W>) -> fmt::Result {
        match self {
            Stop::Refused(refusal) => write!(f, "{refusal}"),
            Stop::NoDie(why) => write!(f, "no die is made: {why:?}"),
            Stop::NotOpened => write!(f, "a die isn't opened"),
            Stop::NoPort => write!(f, "a port is missing"),
            Stop::NotClosed(why) => write!(f, "a die isn't closed: {why}"),
            Stop::NotRead => write!(f, "a page isn't read"),
        }
    }
}

// What is refused is dropped with all its parts, and what is boxed is moved. So these two are of any type: at a die they
// would be proved through all of it.

/// What is refused stops the recorder so.
pub(crate) fn or_stop<T, E: Drop>(answer: Result<T, E>, stop: Stop) -> Result<T, Stop>
    ensures { IfOk result (λ value. answer ≡ Ok value) }
{
    match answer {
        Ok(value) => Ok(value),
        Err(_) => Err(stop),
    }
}

/// Puts a value into a box.
pub(crate) fn boxed<T: Drop>(alloc: Global, value: T) -> Result<Box<T>, Stop> {
    match Box::new(alloc, value) {
        Ok(kept) => Ok(kept),
        Err(_) => Err(Stop::Refused(Refusal::NoMemory)),
    }
}
