//! Why the program ends with another status than 0.

ghost use Rattle.std.specs.Prelude.{◌≡◌};
ghost use Rattle.flash_commands.specs.Faults.{outcome_status, status_of};

use slot_types::Refusal;
use std::io::Write;
use thiserror::Error;

/// Why the program ends with another status than 0.
#[derive(Debug, Drop, Error)]
pub enum Fault {
    /// A text, a file or memory.
    #[error("error {} {}", .0.number(), .0)]
    Refused(Refusal),
    /// The words of the command line, as clap says it.
    #[error("{0}")]
    Words(clap::Error),
    /// A word of the command line that is no text.
    #[error("error: a word of the command line isn't UTF-8")]
    NotText,
    /// A certificate that doesn't hold.
    #[error("a certificate is refused")]
    Certificate,
}

impl From<Refusal> for Fault {
    ghost use Rattle.std.specs.Prelude.{◌≡◌};
    ghost use Rattle.flash_commands.specs.declared.faults.Fault.TheVariants.{Refused};

    ghost from_gives = { λ refusal fault. fault ≡ Refused refusal };

    fn from(refusal: Refusal) -> Fault {
        Fault::Refused(refusal)
    }
}

impl Fault {
    /// The status with which the program ends: 1 for a refusal, 2 for a fault of the command line, 3 for a
    /// certificate that is refused.
    pub fn status(&self) -> u8
        ensures { result ≡ status_of self.now }
    {
        match self {
            Fault::Refused(_) => 1,
            Fault::Words(_) | Fault::NotText => 2,
            Fault::Certificate => 3,
        }
    }
}

/// Tells a refusal, or a word that is no text, in a line, and gives the status of what was done. A writer that fails is
/// passed over.
pub fn end<W: Write>(err: &mut W, done: Result<(), Fault>) -> u8
    ensures { result ≡ outcome_status done }
{
    let Err(fault) = done else {
        return 0;
    };
    if let Fault::Refused(_) | Fault::NotText = &fault {
        let _ = writeln!(err, "{fault}");
    }
    fault.status()
}
