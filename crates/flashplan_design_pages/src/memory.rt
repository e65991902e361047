//! How many bytes a die asks of the heap, through the library for C. The numbers are those of the lists of the store's crates:
//! which there are, how many bytes an item of each takes, and how a list grows. `bindings/c/memory.c` has them for C.

/// What a die has.
#[derive(Clone, Copy, PartialEq, Eq, Debug, Drop)]
pub struct MemoryShape {
    pub blocks: u32,
    pub pages: u32,
    pub logical: u32,
    pub tasks: u32,
    /// Whether its plan has times.
    pub has_times: bool,
}

/// What comes in a life, or in a part of one.
#[derive(Clone, Copy, PartialEq, Eq, Debug, Drop)]
pub struct LifeWork {
    pub slots: u32,
    /// Jobs and collections.
    pub jobs: u32,
    pub operations: u32,
}

/// How many bytes a die takes.
#[derive(Clone, Copy, PartialEq, Eq, Debug, Drop)]
pub struct DieMemory {
    /// At its birth, and always.
    pub birth: u64,
    /// That, and all of a life reserved at once, jobs first.
    pub reserved: u64,
    /// By the end of such a life at most, where nothing was reserved.
    pub life: u64,
    /// Until it has been resumed from a checkpoint.
    pub resume: u64,
}

/// How many items a list has room for that had room for `room` and is to have `wanted`: as many, or twice as many as before.
fn grown(room: u64, wanted: u64, first: u64) -> u64 {
    if wanted <= room {
        return room;
    }
    wanted.max(first).max(room.saturating_mul(2))
}

/// How many a list has room for that has grown one by one, by doubling.
fn doubled(items: u64, first: u64) -> u64 {
    if items == 0 {
        return 0;
    }
    let mut room = first;
    for _ in 0..64 {
        if room >= items {
            break;
        }
        room = room.saturating_mul(2);
    }
    room
}

/// The bytes of `items` items, each of `each` bytes.
fn bytes(items: u64, each: u64) -> u64 {
    items.saturating_mul(each)
}

/// The sum of some bytes.
fn sum(parts: &[u64]) -> u64 {
    let mut sum: u64 = 0;
    for part in parts {
        sum = sum.saturating_add(*part);
    }
    sum
}

/// At its birth: the die itself, the mirror, the map, what is known of blocks, the accounts, caps and times.
fn at_birth(shape: &MemoryShape) -> u64 {
    let (blocks, pages) = (u64::from(shape.blocks), u64::from(shape.pages));
    let (cells, tasks) = (bytes(blocks, pages), u64::from(shape.tasks));
    let listed = doubled(tasks, 4);
    let times = if shape.has_times {
        bytes(listed, 16)
    } else {
        0
    };
    sum(&[
        1136,
        bytes(cells, 20),
        bytes(u64::from(shape.logical), 4),
        bytes(blocks, 60),
        bytes(pages.saturating_add(1), 8),
        bytes(blocks.div_ceil(64), 8),
        bytes(tasks, 53),
        bytes(listed, 4),
        times,
    ])
}

/// The log's entries and the callers that it names.
#[derive(Clone, Copy, Drop)]
struct LogRoom {
    entries: u64,
    callers: u64,
}

impl LogRoom {
    fn bytes(&self) -> u64 {
        bytes(self.entries, 16).saturating_add(bytes(self.callers, 8))
    }
}

/// The log that is reserved: for the jobs first, and then for the slots, too.
fn reserved_logs(slots: u64, jobs: u64) -> (LogRoom, LogRoom) {
    let first = LogRoom {
        entries: grown(0, jobs, 4),
        callers: if jobs > 0 {
            grown(0, jobs.max(64), 4)
        } else {
            0
        },
    };
    let events = slots.saturating_add(jobs);
    if events <= first.entries {
        return (first, first);
    }
    let all = LogRoom {
        entries: grown(first.entries, events, 4),
        callers: grown(first.callers, events.max(64), 4),
    };
    (first, all)
}

/// What the log takes while it is moved: the old entries are there, too, and then the old callers.
fn moving(first: LogRoom, all: LogRoom) -> u64 {
    let mut most = all.bytes();
    if all.entries > first.entries {
        most = most.max(bytes(all.entries, 16).saturating_add(first.bytes()));
    }
    if all.callers > first.callers {
        most = most.max(all.bytes().saturating_add(bytes(first.callers, 8)));
    }
    most
}

/// Beside its birth, all of it reserved at once, jobs first: the log, waivers, jobs with their queues, operations.
fn when_reserved(tasks: u64, work: &LifeWork) -> u64 {
    let (jobs, operations) = (u64::from(work.jobs), u64::from(work.operations));
    let (first, all) = reserved_logs(u64::from(work.slots), jobs);
    let waivers = if jobs > 0 {
        grown(0, tasks.saturating_add(jobs), 4)
    } else {
        0
    };
    sum(&[
        moving(first, all),
        bytes(waivers, 12),
        bytes(grown(0, jobs, 4), 64),
        grown(0, operations, 8),
        bytes(grown(0, operations, 4), 36),
    ])
}

/// Beside its birth, where nothing is reserved and each list grows as it goes: one more of each, a slot that has begun, and a
/// job that is refused half way. While the greatest list is moved, it is there twice.
fn when_grown(tasks: u64, work: &LifeWork) -> u64 {
    let rows = u64::from(work.jobs).saturating_add(1).min(65_536);
    let slots = u64::from(work.slots).saturating_add(1).min(1_048_576);
    let events = slots.saturating_add(rows);
    let entries = bytes(doubled(events, 4), 16);
    let table = bytes(doubled(rows, 4), 48);
    let operations = bytes(u64::from(work.operations), 2);
    let names = bytes(operations.saturating_add(8), 16);
    sum(&[
        entries,
        bytes(doubled(events.saturating_add(64), 64), 8),
        table,
        bytes(doubled(rows, 4), 16),
        bytes(tasks.saturating_add(rows), 24),
        operations.saturating_add(8),
        bytes(operations.saturating_add(4), 4),
        names,
        (entries / 2).max(table / 2).max(names / 2),
    ])
}

/// Beside a birth, until a die has been resumed: the arrays of the checkpoint.
fn when_resumed(shape: &MemoryShape) -> u64 {
    sum(&[
        bytes(doubled(u64::from(shape.logical), 4), 28),
        bytes(doubled(u64::from(shape.blocks), 4), 8),
        bytes(u64::from(shape.tasks), 4),
    ])
}

/// How many bytes a die asks of the heap at most, in all blocks that it has at once, where a life, or a part of one,
/// has as much work as `work` says. What the heap itself takes for a block isn't counted.
pub fn memory_of(shape: &MemoryShape, work: &LifeWork) -> DieMemory {
    let (birth, tasks) = (at_birth(shape), u64::from(shape.tasks));
    DieMemory {
        birth,
        reserved: birth.saturating_add(when_reserved(tasks, work)),
        life: birth.saturating_add(when_grown(tasks, work)),
        resume: birth.saturating_add(when_resumed(shape)),
    }
}
