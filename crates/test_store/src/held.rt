//! Gates and a device that hold one die up until another has gone on.

ghost use Rattle.std.specs.Prelude.{◌≡◌};

use die_service::Gate;
use flash_die::Nand;
use slot_types::{PageData, Place, Refusal, Shape};
use std::alloc::Global;
use std::marker::Model;
use std::sync::atomic::{AtomicU64, Ordering};
use std::sync::{Arc, Mutex};
use std::thread;

/// How often a thread looks for a mark before it goes on without. A test has at most four such threads, so it looks at
/// most 100,000,000 times in all.
const LOOKS: u32 = 25_000_000;

/// A mark that one thread sets and another waits for. Once a thread has waited in vain, nobody waits for it any more:
/// so all looks for a mark together are no more than `LOOKS` for each thread that waits.
#[derive(Drop)]
pub(crate) struct Mark {
    set: AtomicU64,
    ran_out: AtomicU64,
}

impl Mark {
    pub(crate) fn new() -> Mark {
        Mark {
            set: AtomicU64::new(0),
            ran_out: AtomicU64::new(0),
        }
    }

    fn put(&self) {
        self.set.store(1, Ordering::SeqCst);
    }

    fn is_set(&self) -> bool {
        self.set.load(Ordering::SeqCst) != 0
    }

    fn ran_out(&self) -> bool {
        self.ran_out.load(Ordering::SeqCst) != 0
    }

    // Looks for the mark, and notes where it looked in vain.
    fn wait(&self) {
        for _ in 0..LOOKS {
            if self.is_set() || self.ran_out() {
                return;
            }
            thread::yield_now();
        }
        self.ran_out.store(1, Ordering::SeqCst);
    }

    /// Whether the mark was set, and nobody waited in vain.
    pub(crate) fn was_met(&self) -> bool {
        self.is_set() && !self.ran_out()
    }
}

/// A gate that holds one die before each slot until another has carried one out.
#[derive(Drop)]
pub(crate) struct HoldGate {
    /// The die that is held.
    pub(crate) held: u32,
    pub(crate) mark: Mark,
}

impl Gate for HoldGate {
    fn before(&self, die: u32, _slot: u32) {
        if die == self.held {
            self.mark.wait();
        }
    }

    fn after(&self, die: u32, _slot: u32) {
        if die != self.held {
            self.mark.put();
        }
    }
}

/// A gate that holds one die before its first slot until another die's device is within a read.
#[derive(Drop)]
pub(crate) struct EnterGate {
    /// The die that is held.
    pub(crate) held: u32,
    pub(crate) read: Arc<Read, Global>,
}

impl Gate for EnterGate {
    fn before(&self, die: u32, _slot: u32) {
        if die == self.held {
            self.read.begun.wait();
        }
    }

    fn after(&self, _die: u32, _slot: u32) {}
}

/// A gate that holds one die before its slots until another has carried one out, and lists the dies in the order in
/// which their slots were carried out.
#[derive(Drop)]
pub(crate) struct ListGate {
    held: u32,
    until: u32,
    mark: Mark,
    dies: Mutex<Vec<u32>>,
}

impl ListGate {
    /// A gate that holds die `held` until die `until` has carried a slot out, with an empty list of dies.
    pub(crate) fn new(held: u32, until: u32, dies: Vec<u32>) -> ListGate {
        ListGate {
            held,
            until,
            mark: Mark::new(),
            dies: Mutex::new(dies),
        }
    }

    /// The dies in their order, if nobody waited in vain.
    pub(crate) fn into_dies(self) -> Option<Vec<u32>> {
        if self.mark.was_met() {
            return Some(self.dies.into_inner());
        }
        None
    }
}

impl Gate for ListGate {
    fn before(&self, die: u32, _slot: u32) {
        if die == self.held {
            self.mark.wait();
        }
    }

    // While one worker is held only the other one lists its dies, so no call finds the list locked.
    fn after(&self, die: u32, _slot: u32) {
        if let Some(mut dies) = self.dies.try_lock() {
            let _ = dies.push(die);
        }
        if die == self.until {
            self.mark.put();
        }
    }
}

/// What two devices know of a read: that one has begun it, and that the other has answered one.
#[derive(Drop)]
pub(crate) struct Read {
    begun: Mark,
    answered: Mark,
}

impl Read {
    pub(crate) fn new() -> Read {
        Read {
            begun: Mark::new(),
            answered: Mark::new(),
        }
    }

    /// Whether the read was begun and the other answered, and nobody waited in vain.
    pub(crate) fn was_met(&self) -> bool {
        self.begun.was_met() && self.answered.was_met()
    }
}

/// A device that waits within its reads until the other one has answered a read, or says that it has.
#[derive(Drop)]
pub(crate) struct HeldNand<N: Nand> {
    inner: N,
    waits: bool,
    read: Arc<Read, Global>,
}

impl<N: Nand> Model for HeldNand<N> {
    ghost Value = { N };

    ghost view = { λ h. h.inner };
}

impl<N: Nand> HeldNand<N> {
    pub(crate) fn new(inner: N, waits: bool, read: Arc<Read, Global>) -> HeldNand<N>
        ensures { result ≡ inner }
    {
        HeldNand { inner, waits, read }
    }
}

impl<N: Nand> Nand for HeldNand<N> {
    ghost shape_of = { N.shape_of };

    ghost blocks = { N.blocks };

    ghost failures = { N.failures };

    ghost ends = { N.ends };

    ghost never_fails = { N.never_fails };

    fn shape(&self) -> Shape {
        self.inner.shape()
    }

    fn read(&mut self, place: Place) -> Result<PageData, Refusal> {
        if self.waits {
            self.read.begun.put();
            self.read.answered.wait();
        }
        let bytes = self.inner.read(place);
        if !self.waits {
            self.read.answered.put();
        }
        bytes
    }

    fn program(&mut self, place: Place, bytes: PageData) -> Result<(), Refusal> {
        self.inner.program(place, bytes)
    }

    fn program_page(&mut self, place: Place, page: u32, bytes: PageData) -> Result<(), Refusal> {
        self.inner.program_page(place, page, bytes)
    }

    fn erase_slot(&mut self, block: u32) -> Result<bool, Refusal> {
        self.inner.erase_slot(block)
    }
}
