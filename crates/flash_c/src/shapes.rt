//! What crosses to C and back. maulgreen.h has the same structs, field by field.

/// The sixteen bytes of a page, which name a payload of any size.
#[repr(C)]
#[derive(Clone, Copy, Drop)]
pub struct FlashName {
    pub bytes: [u8; 16],
}

/// What a die has, but for its tasks.
#[repr(C)]
#[derive(Clone, Copy, Drop)]
pub struct FlashPlan {
    pub blocks: u32,
    pub pages: u32,
    pub erase_slots: u32,
    pub logical: u32,
    pub alpha: u32,
    /// A multiple of all periods; 0 where the plan has no times.
    pub common: u32,
}

/// A task of a die: the most free pages that it may own tokens for, and its times, which aren't looked at in a plan
/// without.
#[repr(C)]
#[derive(Clone, Copy, Drop)]
pub struct FlashTask {
    pub cap: u32,
    pub period: u32,
    pub collect_period: u32,
    pub work: u32,
    pub writes: u32,
}

/// The demand of a plan: the most slots of each `common` ones, its hyperperiod.
#[repr(C)]
#[derive(Clone, Copy, Drop)]
pub struct FlashLoad {
    pub demand: u64,
    pub common: u32,
}

/// An operation: 0 reads the page, 1 writes it, 2 trims it.
#[repr(C)]
#[derive(Clone, Copy, Drop)]
pub struct FlashOp {
    pub kind: u32,
    pub page: u32,
    pub name: FlashName,
}

/// The numbers of a refusal, 0 where it has none.
#[repr(C)]
#[derive(Clone, Copy, Drop)]
pub struct FlashWhy {
    pub first: u32,
    pub second: u32,
}

/// What the driver is to do: 0 nothing, 1 read, 2 program, 3 one slot of an erase, 4 note a trim.
#[repr(C)]
#[derive(Clone, Copy, Drop)]
pub struct FlashCall {
    pub kind: u32,
    pub block: u32,
    pub page: u32,
    /// 1 where the slot of the erase is its last.
    pub last: u32,
    /// The slot that has begun; what it does, as a `FlashReply` says it; and for which job or collection.
    pub slot: u32,
    pub act: u32,
    pub job: u32,
    /// The logical page that is read, written, trimmed or copied; 0xFFFFFFFF in an erase, and where the slot is idle.
    pub logical: u32,
    /// What is programmed, or what a read has to give.
    pub name: FlashName,
    /// Of a program how often its block was erased so far, as the die counts.
    pub erases: u32,
}

/// What a slot did. `act`: 0 idle, 1 read, 2 write, 3 trim, 4 copy read, 5 copy program, 6 erase.
#[repr(C)]
#[derive(Clone, Copy, Drop)]
pub struct FlashReply {
    pub slot: u32,
    pub act: u32,
    /// The job or collection that had the slot.
    pub job: u32,
    /// The logical page, or the block that is erased.
    pub page: u32,
    /// 1 where the job or collection was done with it.
    pub finished: u32,
    /// How many collections were waived.
    pub waived: u32,
    /// Who began the slot.
    pub caller: u32,
    pub name: FlashName,
}

/// A collection that was waived, and the pages that it gave its task.
#[repr(C)]
#[derive(Clone, Copy, Drop)]
pub struct FlashWaived {
    pub job: u32,
    pub given: u32,
}

/// An entry of the log. `what`: 0 a job was accepted, 1 a collection was; a slot in which 2 nothing was carried, 3 a job did an
/// operation, 4 its last one, a collection 5 read a page, 6 programmed it, 7 did a slot of its erase, 8 the last one.
#[repr(C)]
#[derive(Clone, Copy, Drop)]
pub struct FlashEntry {
    pub what: u32,
    /// Who called.
    pub caller: u32,
    /// The job or collection; 0 where nothing was carried.
    pub job: u32,
    /// Which of the job's operations it was, from 0; the logical page that was copied; the block that was erased; else 0.
    pub at: u32,
    /// How many collections were waived in the slot.
    pub waived: u32,
}

/// What a job or a collection was accepted with.
#[repr(C)]
#[derive(Clone, Copy, Drop)]
pub struct FlashJob {
    /// 1 where it is a collection.
    pub collects: u32,
    pub task: u32,
    pub release: u32,
    pub due: u32,
}

/// What became of a job or collection: 0 waits, 1 done, 2 waived.
#[repr(C)]
#[derive(Clone, Copy, Drop)]
pub struct FlashOutcome {
    pub lateness: i64,
    pub state: u32,
    pub completion: u32,
    pub given: u32,
    /// How many reads it had.
    pub reads: u32,
}

/// The done job or collection with the greatest lateness.
#[repr(C)]
#[derive(Clone, Copy, Drop)]
pub struct FlashWorst {
    pub lateness: i64,
    pub job: u32,
}

/// Work that is overdue, and by how much it will be late at least.
#[repr(C)]
#[derive(Clone, Copy, Drop)]
pub struct FlashOverdue {
    pub late_by: u64,
    pub job: u32,
    pub due: u32,
}

/// A certificate: `jobs` jobs filled the slots from `start` to `completion`.
#[repr(C)]
#[derive(Clone, Copy, Drop)]
pub struct FlashCertificate {
    pub job: u32,
    pub start: u32,
    pub due: u32,
    pub completion: u32,
    pub jobs: u32,
}

/// What is known of a job or of a collection that wasn't waived.
#[repr(C)]
#[derive(Clone, Copy, Drop)]
pub struct FlashRow {
    pub number: u32,
    pub release: u32,
    pub due: u32,
    /// How many slots carried it so far.
    pub work: u32,
    /// 1 where it is done.
    pub done: u32,
    /// One more than the last slot that carried it, where it is done.
    pub completion: u32,
}

/// The cell in which a logical page lies; with `block` 0xFFFFFFFF it lies nowhere.
#[repr(C)]
#[derive(Clone, Copy, Drop)]
pub struct FlashPlace {
    pub block: u32,
    pub page: u32,
}

/// How many pages of a block are programmed, and how often it was erased.
#[repr(C)]
#[derive(Clone, Copy, Drop)]
pub struct FlashBlock {
    pub filled: u32,
    pub erases: u32,
}

/// What a cell shows: the label of a program; with `page` 0xFFFFFFFF it isn't good.
#[repr(C)]
#[derive(Clone, Copy, Drop)]
pub struct FlashLabel {
    pub serial: u64,
    pub page: u32,
    /// How often the cell's block was erased before the program.
    pub erases: u32,
}

/// What is known of the part beneath a die: what the label of the next program bears, and the block that stands aside, by the
/// part's number.
#[repr(C)]
#[derive(Clone, Copy, Drop)]
pub struct FlashPart {
    pub serial: u64,
    pub aside: u32,
}

/// What a mount needs next: 0 nothing any more, 1 a read, 2 a program, 3 one slot of an erase, 4 to be told a block.
#[repr(C)]
#[derive(Clone, Copy, Drop)]
pub struct FlashStep {
    /// Of a program what its label bears.
    pub serial: u64,
    pub kind: u32,
    pub block: u32,
    pub page: u32,
    /// Of a program the logical page.
    pub logical: u32,
    /// 1 where the slot of the erase is its last.
    pub last: u32,
    /// Of a program how often its block was erased so far, as the mount counts.
    pub erases: u32,
}

/// What a task asks for of a die that keeps its plan. All times are in slots.
#[repr(C)]
#[derive(Clone, Copy, Drop)]
pub struct FlashTerms {
    pub period: u32,
    pub deadline: u32,
    pub held: u32,
    pub work: u32,
    pub writes: u32,
    pub collect_period: u32,
    pub collect_deadline: u32,
}

/// What an ask is answered that isn't refused. Slots are those of the clock of all lives.
#[repr(C)]
#[derive(Clone, Copy, Drop)]
pub struct FlashTaken {
    pub release: u64,
    pub due: u64,
    /// 1 where it waits for the next life.
    pub waits: u32,
    /// The number of its first job; 0 where it waits.
    pub first: u32,
    /// How many jobs it is; 0 where it waits.
    pub jobs: u32,
}

/// The numbers of a refused ask, 0 where it has none.
#[repr(C)]
#[derive(Clone, Copy, Drop)]
pub struct FlashUnasked {
    /// The first slot with room for it, from the start of the present life.
    pub next: u64,
    /// The most operations or writes, the page, or the block.
    pub number: u32,
}

/// The present life of a die that keeps its plan.
#[repr(C)]
#[derive(Clone, Copy, Drop)]
pub struct FlashLife {
    /// The slot of the clock of all lives in which it began.
    pub first: u64,
    /// How many slots it has.
    pub slots: u32,
    /// Its present slot.
    pub now: u32,
}

/// The numbers of why no die that keeps its plan goes on, 0 where it has none.
#[repr(C)]
#[derive(Clone, Copy, Drop)]
pub struct FlashUnresumed {
    /// The block, page or task; or what the accounts share out.
    pub first: u32,
    /// How many pages are free, or how many the task has.
    pub second: u32,
    /// How many pages the task needs.
    pub third: u32,
}

/// What a table of spare blocks needs next: 0 nothing any more, 1 the report of a block, 2 a whole erase, 3 a copy from the
/// cell of another block with the same page, 4 the program that failed. Blocks are the part's.
#[repr(C)]
#[derive(Clone, Copy, Drop)]
pub struct FlashMove {
    pub kind: u32,
    pub block: u32,
    pub page: u32,
    /// Of a copy the block whose cell is copied.
    pub from: u32,
}
