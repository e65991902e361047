//! What a check of a certificate answers.

ghost use Rattle.std.specs.Prelude.{◌≡◌};
ghost use Rattle.late_cert.specs.Verdict.{fault_number, name_of};

/// What a check of a certificate answers: that it holds, or its first fault.
#[derive(Clone, Copy, PartialEq, Eq, Debug, Drop)]
pub enum Verdict {
    Holds,
    /// It lists no job.
    Empty,
    /// A listed number isn't above the one before.
    NotRising,
    /// A listed number has no row.
    UnknownJob,
    /// A listed job isn't done, or no slot carried it.
    Unfinished,
    /// A listed job was released before the certificate's start.
    EarlyRelease,
    /// A listed job is due after the certificate's deadline.
    LateDue,
    /// The work of the listed jobs isn't the number of slots from the start to the completion.
    WrongSum,
}

impl Verdict {
    /// The number of the fault, from 1 to 7 in the order in which faults are looked for.
    /// A certificate that holds has none.
    pub fn number(self) -> Option<u8>
        ensures { result ≡ fault_number self }
    {
        match self {
            Verdict::Holds => None,
            Verdict::Empty => Some(1),
            Verdict::NotRising => Some(2),
            Verdict::UnknownJob => Some(3),
            Verdict::Unfinished => Some(4),
            Verdict::EarlyRelease => Some(5),
            Verdict::LateDue => Some(6),
            Verdict::WrongSum => Some(7),
        }
    }

    /// The name of the verdict, as it is spelled here.
    pub fn name(self) -> &'static str
        ensures { result.now ≡ name_of self }
    {
        match self {
            Verdict::Holds => "Holds",
            Verdict::Empty => "Empty",
            Verdict::NotRising => "NotRising",
            Verdict::UnknownJob => "UnknownJob",
            Verdict::Unfinished => "Unfinished",
            Verdict::EarlyRelease => "EarlyRelease",
            Verdict::LateDue => "LateDue",
            Verdict::WrongSum => "WrongSum",
        }
    }
}
