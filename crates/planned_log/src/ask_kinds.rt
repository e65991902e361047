//! What a task may ask for in one call.

/// What a task asks for in one call.
#[derive(Clone, Copy, PartialEq, Eq, Debug, Drop)]
pub enum AskKind {
    /// One job.
    Job,
    /// As many jobs as its operations take.
    Burst,
}
