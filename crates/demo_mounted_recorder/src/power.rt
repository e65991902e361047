//! A power supply that goes at a chosen write, and a store that hangs on it.

use file_nand::{CellStore, ERASED, Record};
use slot_types::Place;
use std::alloc::Global;
use std::cell::Cell;
use std::io;
use std::io::ErrorKind;

/// At which write the power goes.
#[derive(Clone, Copy, Drop)]
pub(crate) enum Cut {
    /// At none.
    Never,
    /// In a start: where what was saved is voided, or else after this number of writes of cells.
    Start(u32),
    /// At the next write of a program.
    Program,
    /// At the next one of an erase.
    Erase,
    /// At that of the text of what is saved.
    Text,
    /// At that of its seal.
    Seal,
}

/// What a write leaves at which the power goes.
#[derive(Clone, Copy, PartialEq, Eq, Drop)]
pub(crate) enum Leaves {
    Nothing,
    /// Some of its bytes, the more the greater the share is, of 35.
    Part { share: u32 },
    All,
}

/// How many bytes a write of a cell has, one of the text of what is saved, and one of a seal.
pub(crate) const CELL: u32 = 36;

pub(crate) const TEXT: u32 = 228;

pub(crate) const SEAL: u32 = 12;

impl Leaves {
    /// How many of a write's bytes are left: of `count`, or none, or some.
    pub(crate) fn of(self, count: u32) -> u32 {
        match self {
            Leaves::Nothing => 0,
            Leaves::Part { share } => {
                let more = u64::from(share).saturating_mul(u64::from(count.saturating_sub(1))) / 35;
                u32::try_from(more).unwrap_or(0).saturating_add(1)
            }
            Leaves::All => count,
        }
    }
}

/// A power supply.
#[derive(Clone, Copy, Drop)]
pub(crate) struct Power {
    pub(crate) cut: Cut,
    pub(crate) leaves: Leaves,
    pub(crate) has_gone: bool,
    /// How many cells were written since it came, the one at which it goes counted, too.
    pub(crate) cells: u32,
}

impl Power {
    /// It goes at this write, of which that is left.
    pub(crate) fn cut_at(cut: Cut, leaves: Leaves) -> Power {
        Power {
            cut,
            leaves,
            has_gone: false,
            cells: 0,
        }
    }

    /// It stays.
    pub(crate) fn on() -> Power {
        Power::cut_at(Cut::Never, Leaves::All)
    }

    /// Whether it goes at this write of a cell.
    fn goes_at_cell(&self, record: &Record) -> bool {
        match self.cut {
            Cut::Start(writes) => self.cells == writes,
            Cut::Program => *record != ERASED,
            Cut::Erase => *record == ERASED,
            Cut::Never | Cut::Text | Cut::Seal => false,
        }
    }

    /// Whether it goes at this write of what is saved: of its text, of a seal, or of zeros in the place of that.
    fn goes_at_saved(&self, at: u64, bytes: &[u8]) -> bool {
        match self.cut {
            Cut::Text => at > 0,
            Cut::Seal => at == 0 && bytes[..] != [0; 12][..],
            Cut::Start(_) => at == 0 && bytes[..] == [0; 12][..],
            Cut::Never | Cut::Program | Cut::Erase => false,
        }
    }

    /// After one more write of a cell.
    fn counted(self) -> Power {
        Power {
            cells: self.cells.saturating_add(1),
            ..self
        }
    }
}

/// A store that can be read and written as long as there is power.
#[derive(Drop)]
pub(crate) struct PoweredStore<'p, S: CellStore> {
    pub(crate) store: S,
    pub(crate) power: &'p Cell<Power>,
}

fn no_power() -> io::Error {
    io::Error::from(ErrorKind::BrokenPipe)
}

/// What is left of a cell's write that is cut after `left` bytes.
fn torn(old: &Record, new: &Record, left: u32) -> Record {
    let mut record = *old;
    for at in 0..36 {
        if (at as u32) < left {
            record[at] = new[at];
        }
    }
    record
}

/// The first `count` bytes.
fn first_of(bytes: &[u8], count: u32) -> &[u8] {
    let (first, _) = bytes.split_at(bytes.len().min(count as usize));
    first
}

impl<'p, S: CellStore> PoweredStore<'p, S> {
    /// The power goes.
    fn cut(&mut self, power: Power) {
        self.power.set(Power {
            has_gone: true,
            ..power
        });
    }

    /// The power goes at this write of a cell.
    fn cut_cell(&mut self, place: Place, record: &Record, power: Power) -> io::Result<()> {
        self.cut(power.counted());
        let old = self.store.read_cell(place)?;
        self.store
            .write_cell(place, &torn(&old, record, power.leaves.of(CELL)))?;
        Err(no_power())
    }

    /// The power goes at this write of what is saved.
    fn cut_saved(&mut self, at: u64, bytes: &[u8], power: Power) -> io::Result<()> {
        self.cut(power);
        let count = u32::try_from(bytes.len()).unwrap_or(u32::MAX);
        self.store
            .write_saved(at, first_of(bytes, power.leaves.of(count)))?;
        Err(no_power())
    }
}

impl<'p, S: CellStore> CellStore for PoweredStore<'p, S> {
    fn read_cell(&mut self, place: Place) -> io::Result<Record> {
        if self.power.get().has_gone {
            return Err(no_power());
        }
        self.store.read_cell(place)
    }

    fn write_cell(&mut self, place: Place, record: &Record) -> io::Result<()> {
        let power = self.power.get();
        if power.has_gone {
            return Err(no_power());
        }
        if power.goes_at_cell(record) {
            return self.cut_cell(place, record, power);
        }
        self.power.set(power.counted());
        self.store.write_cell(place, record)
    }

    fn read_saved(&mut self, alloc: Global) -> io::Result<Vec<u8>> {
        if self.power.get().has_gone {
            return Err(no_power());
        }
        self.store.read_saved(alloc)
    }

    fn write_saved(&mut self, at: u64, bytes: &[u8]) -> io::Result<()> {
        let power = self.power.get();
        if power.has_gone {
            return Err(no_power());
        }
        if power.goes_at_saved(at, bytes) {
            return self.cut_saved(at, bytes, power);
        }
        self.store.write_saved(at, bytes)
    }
}
