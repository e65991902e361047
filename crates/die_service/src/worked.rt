//! A die of a run of passes, before its worker runs it and after.

ghost use Rattle.std.specs.Prelude.{◌≡◌, None, Some};
ghost use Rattle.die_service.specs.Drives.{IsFirstState};
ghost use Rattle.die_service.specs.Work.{EndsAs};

use crate::drivers::Driver;
use crate::ends::DieEnd;
use crate::work::Work;
use std::marker::Model;

/// A die that is still to be run, and then what came of it. Its feed is freed with the driver, so that the dies that run
/// later find its memory.
#[derive(Drop)]
pub(crate) struct Worked<W: Work> {
    driver: Option<Driver<W>>,
    ended: Option<(DieEnd, W)>,
}

impl<W: Work> Model for Worked<W> {
    ghost use Rattle.std.specs.Prelude.{Option, IfSome};
    ghost use Rattle.die_service.specs.Drives.{IsFirstState};
    ghost use Rattle.die_service.specs.Drives as drives;
    ghost use Rattle.die_service.specs.declared.ends.DieEnd as ends;

    ghost Value = { Option (drives.WorkerState W) × Option (ends.DieEnd × W) };

    ghost view = { λ w. (w.driver, w.ended) };

    ghost invariant = { λ w. IfSome w.driver IsFirstState };
}

impl<W: Work> Worked<W> {
    /// A die that is still to be run.
    pub(crate) fn new(driver: Driver<W>) -> Worked<W>
        requires { IsFirstState driver }
        ensures { result ≡ (Some driver, None) }
    {
        Worked {
            driver: Some(driver),
            ended: None,
        }
    }

    /// Runs the die, whose number this is, for `slots` slots from slot 0 on.
    pub(crate) fn run(&mut self, number: u32, slots: u32)
        ensures { EndsAs W.does number slots self.old self.new }
    {
        if let Some(driver) = self.driver.take() {
            let mut driver = driver;
            driver.run(number, 0, slots);
            self.ended = Some(driver.into_end());
        }
    }

    /// What came of a die that was run.
    pub(crate) fn into_ended(self) -> Option<(DieEnd, W)>
        ensures { result ≡ self.1 }
    {
        self.ended
    }
}
