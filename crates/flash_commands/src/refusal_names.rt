//! What refusals are called by their numbers, and what a row has that is refused so.

/// What a refusal of a row is called, and what it means.
#[derive(Clone, Copy, Drop)]
pub struct RefusalName {
    pub name: &'static str,
    pub meaning: &'static str,
}

/// A name, and what it means.
const fn named(name: &'static str, meaning: &'static str) -> RefusalName {
    RefusalName { name, meaning }
}

/// What the refusal of this number is called, of those that a die answers to a row.
pub fn refusal_name(number: u8) -> Option<RefusalName> {
    Some(match number {
        1 => named("NoMemory", "memory ran out"),
        5 => named("UnknownTask", "its die has no such task"),
        6 => named("EmptyJob", "a job has 1 to 64 operations, and it has none"),
        7 => named(
            "TooManyOps",
            "a job has 1 to 64 operations, and it has more",
        ),
        8 => named("BadPage", "one of its pages isn't below `logical`"),
        9 => named("ReleasePast", "its `release` is below its `at`"),
        10 => named(
            "BadDue",
            "its `due` isn't above its `release`, or is above 1048576",
        ),
        11 => named(
            "JobsFull",
            "its die has taken 65536 jobs and collections, which is a life",
        ),
        12 => named(
            "NoTokens",
            "it has more writes than its task has tokens: collect more often, or write less",
        ),
        13 => named(
            "CollectorBusy",
            "a collection of its task is neither done nor waived yet",
        ),
        14 => named("ClockEnd", "its slot is the last one of a life"),
        15 => named("DeviceFault", "the device failed in this call"),
        16 => named("DieStopped", "the device of its die failed before"),
        _ => return None,
    })
}
