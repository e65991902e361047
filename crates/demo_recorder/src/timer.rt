//! The recorder's timer: each of its ticks carries out a slot of a die. It waits for its ticks, and for no task.

ghost use Rattle.std.specs.Prelude.{◌≡◌};

use flash_die::Nand;
use planned_ports::{ClockPort, SharedPlannedDie, SlotRefused};
use std::sync::Wait;
use std::sync::atomic::{AtomicBool, Ordering};
use std::thread;
use std::time::{Clock, Duration};

/// How far apart the ticks are at least, in microseconds.
const TICK: u64 = 10;

/// What came of the ticks.
#[derive(Drop)]
pub(crate) struct Ticked {
    /// How many slots a life has.
    pub(crate) life: u32,
    /// How many slots were carried out.
    pub(crate) slots: u64,
    /// Why a slot wasn't, where one wasn't.
    pub(crate) stop: Option<SlotRefused>,
}

impl Ticked {
    pub(crate) fn new(life: u32) -> Ticked {
        Ticked {
            life,
            slots: 0,
            stop: None,
        }
    }

    /// How many lives were over in this slot of the clock of all lives.
    pub(crate) fn lives_before(&self, slot: u64) -> u64 {
        slot.checked_div(u64::from(self.life)).unwrap_or(0)
    }

    /// One tick: the die carries out its present slot.
    fn tick<N: Nand, R: Wait>(
        &mut self,
        rt: &R,
        die: &SharedPlannedDie<N>,
        clock: &mut ClockPort<N>,
    )
        requires { clock.old.lock ≡ die.now }
        ensures { clock.new.lock ≡ die.now }
    {
        match clock.slot(rt, die) {
            Ok(_) => self.slots = self.slots.saturating_add(1),
            Err(refused) => self.stop = Some(refused),
        }
    }

    /// The middle of the next life: what was asked for up to now is due by then.
    fn last_slot(&self) -> u64 {
        let life = u64::from(self.life);
        let lives = self.lives_before(self.slots).saturating_add(1);
        lives.saturating_mul(life).saturating_add(life / 2)
    }
}

/// The timer's thread: it ticks until the tasks have ended and the next life is half over, or the die carries out no more.
pub(crate) fn run_timer<N: Nand, R: Clock + Wait>(
    rt: &R,
    die: &SharedPlannedDie<N>,
    clock: ClockPort<N>,
    ticked: Ticked,
    have_ended: &AtomicBool,
) -> (ClockPort<N>, Ticked)
    requires { clock.lock ≡ die.now }
    ensures { result.0.lock ≡ die.now }
{
    let (mut clock, mut ticked) = (clock, ticked);
    let mut last = u64::MAX;
    for _ in 0..u64::MAX {
        if ticked.stop.is_some() || ticked.slots >= last {
            break;
        }
        if last == u64::MAX && have_ended.load(Ordering::SeqCst) {
            last = ticked.last_slot();
        }
        let _ = thread::sleep(rt, Duration::from_micros(TICK));
        ticked.tick(rt, die, &mut clock);
    }
    (clock, ticked)
}
