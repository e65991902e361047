//! The policies: in which order jobs go, and when a collection begins and gives way.

/// In which order jobs go.
#[derive(Clone, Copy, PartialEq, Eq, Debug, Drop)]
pub(crate) enum Order {
    /// By release, then by row; a job isn't interrupted by another one.
    Arrival,
    /// By the least time from release to deadline that a job of the task has, then by release, then by row.
    RateMonotonic,
    /// By deadline, then by row.
    EarliestDeadline,
}

/// When a collection begins, and when it gives way.
#[derive(Clone, Copy, PartialEq, Eq, Debug, Drop)]
pub(crate) enum Collecting {
    /// It begins when few blocks are wholly free, and runs to its end, erase included, before any job.
    OnDemand,
    /// It begins then, and in idle slots while the pool isn't full. Jobs go first; but once few blocks were wholly free while
    /// it ran, its copies go before jobs. Parts of an erase always give way.
    Background,
    /// It begins in idle slots while the pool isn't full, or for a write that finds no page, and gives way in every slot.
    Stepwise,
}

/// A plain policy.
#[derive(Clone, Copy, PartialEq, Eq, Debug, Drop)]
pub enum Policy {
    /// First come, first served; collection on demand.
    Fifo,
    /// Rate-monotonic; collection on demand.
    RateMonotonic,
    /// Rate-monotonic; collection in the background.
    RateMonotonicBackground,
    /// Earliest deadline first; collection on demand.
    EarliestDeadline,
    /// Earliest deadline first; collection in the background.
    EarliestDeadlineBackground,
    /// Earliest deadline first; a collection gives way in every slot.
    EarliestDeadlineStepwise,
}

impl Policy {
    /// All of them, in the order in which they are listed.
    pub const ALL: [Policy; 6] = [
        Policy::Fifo,
        Policy::RateMonotonic,
        Policy::RateMonotonicBackground,
        Policy::EarliestDeadline,
        Policy::EarliestDeadlineBackground,
        Policy::EarliestDeadlineStepwise,
    ];

    /// Its name in tables: `fifo`, `rm`, `rm-back`, `edf`, `edf-back` or `edf-step`.
    pub fn name(self) -> &'static str {
        match self {
            Policy::Fifo => "fifo",
            Policy::RateMonotonic => "rm",
            Policy::RateMonotonicBackground => "rm-back",
            Policy::EarliestDeadline => "edf",
            Policy::EarliestDeadlineBackground => "edf-back",
            Policy::EarliestDeadlineStepwise => "edf-step",
        }
    }

    pub(crate) fn order(self) -> Order {
        match self {
            Policy::Fifo => Order::Arrival,
            Policy::RateMonotonic | Policy::RateMonotonicBackground => Order::RateMonotonic,
            _ => Order::EarliestDeadline,
        }
    }

    pub(crate) fn collecting(self) -> Collecting {
        match self {
            Policy::RateMonotonicBackground | Policy::EarliestDeadlineBackground => {
                Collecting::Background
            }
            Policy::EarliestDeadlineStepwise => Collecting::Stepwise,
            _ => Collecting::OnDemand,
        }
    }
}
