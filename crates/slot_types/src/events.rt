//! What may be asked of a die.

ghost use Rattle.std.specs.Prelude.{◌≡◌};
ghost use Rattle.slot_types.specs.Arrivals.{arrival_of};

use crate::items::Items;
use crate::numbers::TaskNo;
use crate::pages::PageData;

/// One operation of a job, on a logical page. It takes one slot.
#[derive(Clone, Copy, PartialEq, Eq, Debug, Drop)]
pub enum Op {
    Read(u32),
    Write(u32, PageData),
    /// The page reads as 16 bytes 0xFF from now on, until it is written again. A trim leaves no mark on the device: after a
    /// loss of power a page that was trimmed since its last write is blank, or has some earlier write of it.
    Trim(u32),
}

/// The operations of a job, in their order.
pub type OpList = Items<Op>;

/// What may happen on a die.
#[derive(Clone, PartialEq, Eq, Debug, Drop)]
pub enum Event {
    /// A job arrives, to run from slot `release` on, with the deadline `due`.
    Submit {
        task: TaskNo,
        release: u32,
        due: u32,
        ops: OpList,
    },
    /// A collection arrives for a task, likewise.
    Collect {
        task: TaskNo,
        release: u32,
        due: u32,
    },
    /// The present slot is carried out.
    Slot,
}

/// What a job or a collection asks, without a job's operations, which lie next to it.
#[derive(Clone, Copy, PartialEq, Eq, Debug, Drop)]
pub struct JobHead {
    /// Whether it is a collection.
    pub collects: bool,
    pub task: TaskNo,
    /// The slot from which on it may run, from the present one on.
    pub release: u32,
    /// Its deadline: the slot before which it is to be done, above its release and at most 1,048,576.
    pub due: u32,
}

impl JobHead {
    /// The event that it arrives by, with its operations. A collection frees them.
    pub fn with_ops(self, ops: OpList) -> Event
        ensures { result ≡ arrival_of self ops }
    {
        let JobHead {
            collects,
            task,
            release,
            due,
        } = self;
        if collects {
            Event::Collect { task, release, due }
        } else {
            Event::Submit {
                task,
                release,
                due,
                ops,
            }
        }
    }
}
