//! Lives of one die, each from a start to a shutdown or to the next loss of power.

use crate::dice::{Dice, End, Fate};
use crate::plan::{PAGES, PART};
use crate::power::{Power, PoweredStore};
use crate::recorder::{Recorder, look};
use crate::report::{print_all, print_life};
use crate::shutdowns::shut;
use crate::started::{Kept, started};
use crate::stops::Stop;
use crate::witness::Witness;
use clean_shutdown::StartRefusal;
use device_mount::MountRefusal;
use file_nand::{CellFile, FileNand};
use flash_die::Nand;
use ongoing_die::{OngoingDie, SlotStop};
use slot_types::Refusal;
use std::alloc::Global;
use std::cell::Cell;
use std::fs::OpenOptions;
use std::io::Write;
use std::rt::Files;

/// Within this number of slots each die writes and erases.
const WAIT: u32 = 512;

/// How a life begins.
#[derive(Clone, Copy, PartialEq, Eq, Drop)]
pub(crate) enum Begun {
    Mounted,
    /// From what was saved, and no cell was written for it.
    Saved,
}

/// What came of all lives up to now.
#[derive(Clone, Copy, Drop)]
pub(crate) struct Tally {
    pub(crate) lives: u64,
    pub(crate) starts_cut: u64,
    pub(crate) from_saved: u64,
    pub(crate) pages: u64,
    pub(crate) due: u64,
    pub(crate) late: u64,
}

/// A series of lives.
#[derive(Drop)]
struct Lives {
    /// What is known of the pages, once they were looked at.
    witness: Option<Witness>,
    /// How the present life begins.
    begun: Begun,
    tally: Tally,
}

/// A die in a box, since it is large to move. It is of any type, so that the proof takes it as a whole.
fn boxed<D: Drop>(alloc: Global, die: Result<D, Stop>) -> Result<Box<D>, Stop> {
    match Box::new(alloc, die?) {
        Ok(die) => Ok(die),
        Err(_) => Err(Stop::NoMemory),
    }
}

/// A die in a file, on a power supply.
type Filed<'p, F> = Kept<FileNand<PoweredStore<'p, CellFile<F>>>>;

/// The die in the file of this name, on a power supply.
pub(crate) fn opened<'p, R: Files>(
    rt: &R,
    alloc: Global,
    name: &str,
    is_synced: bool,
    power: &'p Cell<Power>,
) -> Result<Box<Filed<'p, R::File>>, Stop> {
    let file = OpenOptions::new()
        .read(true)
        .write(true)
        .create(true)
        .open(rt, name)?;
    let store = CellFile::open(file, PART, is_synced)?;
    let part = FileNand::open_saved(alloc, PART, PoweredStore { store, power })?;
    boxed(alloc, started(alloc, part))
}

impl Tally {
    const NONE: Tally = Tally {
        lives: 0,
        starts_cut: 0,
        from_saved: 0,
        pages: 0,
        due: 0,
        late: 0,
    };

    /// A life has begun and ended so.
    fn add(&mut self, begun: Begun, fate: &Fate) {
        self.lives = self.lives.saturating_add(1);
        if let End::Start(_) = fate.end {
            self.starts_cut = self.starts_cut.saturating_add(1);
        } else if begun == Begun::Saved {
            self.from_saved = self.from_saved.saturating_add(1);
        }
    }
}

/// How a life has begun by now, on this power supply: a mount writes cells.
fn begun_by(power: &Cell<Power>) -> Begun {
    if power.get().cells == 0 {
        Begun::Saved
    } else {
        Begun::Mounted
    }
}

impl Lives {
    /// What the pages have fits what is known of them. Nothing is, of a file that was there before.
    fn find(&mut self, numbers: &[u64; PAGES]) -> Result<Witness, Stop> {
        let mut known = match self.witness {
            Some(witness) => witness,
            None => Witness::of(numbers),
        };
        for (page, number) in numbers.iter().enumerate() {
            known.find(page as u32, *number)?;
            self.tally.pages = self.tally.pages.saturating_add(1);
        }
        Ok(known)
    }

    fn count(&mut self, recorder: &Recorder) {
        let (control, logger) = (&recorder.control, &recorder.logger);
        let due = control.due.saturating_add(logger.due);
        let late = control.late.saturating_add(logger.late);
        self.tally.due = self.tally.due.saturating_add(due);
        self.tally.late = self.tally.late.saturating_add(late);
    }

    /// A life after its start: all pages are looked at, and the recorder works for `slots` slots.
    fn work<N: Nand>(
        &mut self,
        alloc: Global,
        die: &mut OngoingDie<N>,
        slots: u32,
    ) -> Result<Recorder, Stop> {
        let numbers = look(alloc, die)?;
        let mut recorder = Recorder::new(self.find(&numbers)?);
        for _ in 0..slots {
            recorder.ask(alloc, die)?;
            recorder.carry(alloc, die)?;
        }
        recorder.settle(die);
        self.count(&recorder);
        Ok(recorder)
    }

    /// Works until the power goes. It answers why it went on no longer.
    fn lose_power<N: Nand>(
        &mut self,
        alloc: Global,
        die: &mut OngoingDie<N>,
        recorder: Recorder,
    ) -> Result<(), Stop> {
        let mut recorder = recorder;
        for _ in 0..WAIT {
            recorder.ask(alloc, die)?;
            self.witness = Some(recorder.witness);
            recorder.carry(alloc, die)?;
        }
        Ok(())
    }

    /// A life, up to where it is shut down, or its power goes.
    fn live<R: Files>(
        &mut self,
        rt: &R,
        alloc: Global,
        name: &str,
        power: &Cell<Power>,
        fate: &Fate,
    ) -> Result<(), Stop> {
        let slots = match fate.end {
            End::Start(_) => {
                power.set(fate.power());
                opened(rt, alloc, name, false, power)?;
                return Ok(());
            }
            End::Program(slots) | End::Erase(slots) => slots,
            End::Text(slots) | End::Seal(slots) | End::Shutdown(slots) => slots,
        };
        power.set(Power::on());
        let mut die = opened(rt, alloc, name, false, power)?;
        self.begun = begun_by(power);
        let mut recorder = self.work(alloc, &mut die, slots)?;
        match fate.end {
            End::Text(_) | End::Seal(_) | End::Shutdown(_) => {
                let end = shut(alloc, Box::into_inner(die), &mut recorder, power, fate);
                self.witness = Some(recorder.witness);
                end
            }
            _ => {
                power.set(fate.power());
                self.lose_power(alloc, &mut die, recorder)
            }
        }
    }
}

/// Whether this is what a device without power is answered.
fn is_fault(stop: &Stop) -> bool {
    match stop {
        Stop::NotStarted(StartRefusal::NotTaken) => true,
        Stop::NotStarted(
            StartRefusal::NotMounted {
                why: MountRefusal::DeviceFault,
            },
        ) => true,
        Stop::NoSlot(SlotStop::DeviceFault) => true,
        Stop::NotSaved(Refusal::DeviceFault) => true,
        _ => false,
    }
}

/// A life has ended so. Its power has to have gone, unless it was shut down.
fn ended(end: Result<(), Stop>, power: &Cell<Power>, fate: &Fate) -> Result<(), Stop> {
    match (end, fate.end) {
        (Ok(()), End::Shutdown(_)) => Ok(()),
        (Ok(()), _) => Err(Stop::NotCut),
        (Err(stop), _) if power.get().has_gone && is_fault(&stop) => Ok(()),
        (Err(stop), _) => Err(stop),
    }
}

/// `count` lives on the file of this name, each of which ends as the dice say.
pub(crate) fn run_lives<R: Files, W: Write>(
    rt: &R,
    alloc: Global,
    name: &str,
    count: u64,
    seed: u64,
    out: &mut W,
) -> Result<(), Stop> {
    let power = Cell::new(Power::on());
    let mut dice = Dice::new(seed);
    let mut lives = Lives {
        witness: None,
        begun: Begun::Mounted,
        tally: Tally::NONE,
    };
    for life in 0..count {
        let fate = Fate::draw(&mut dice);
        let end = lives.live(rt, alloc, name, &power, &fate);
        ended(end, &power, &fate)?;
        if let End::Start(_) = fate.end {
            lives.begun = begun_by(&power);
        }
        lives.tally.add(lives.begun, &fate);
        print_life(out, life + 1, lives.begun, &fate)?;
    }
    Ok(print_all(out, &lives.tally)?)
}
