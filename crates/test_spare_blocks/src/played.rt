//! A die is watched, slot by slot.

use crate::kinds::Kind;
use crate::pages::Pages;
use crate::parts::{Device, PAGES, read_cell};
use crate::wrongs::Wrong;
use slot_types::{PageData, Place};
use spare_blocks::Health;
use std::alloc::Global;

/// How many slots a die has after each ask.
const SLOTS: u32 = 8;

/// How a die ended.
#[derive(Clone, Copy, PartialEq, Eq, Debug, Drop)]
pub(crate) struct Ended {
    pub(crate) health: Health,
    /// How many spare blocks are left.
    pub(crate) spares: u32,
    /// How many of its acts took calls of the part that may fail.
    pub(crate) calls: u64,
    /// The most that a slot has cost.
    pub(crate) most: u64,
}

/// What the part has spent, and how many spare blocks are left.
#[derive(Clone, Copy, Drop)]
struct Meter {
    spent: u64,
    spares: u32,
}

fn read_meter(device: &Device) -> Meter {
    Meter {
        spent: device.part().spent(),
        spares: device.spares(),
    }
}

/// What a slot cost: one call, and twice the pages of a block for each spare one that it used up, or that was being
/// filled as the part had a fault.
fn cost(before: Meter, device: &Device) -> Result<u64, Wrong> {
    let after = read_meter(device);
    let spent = after.spent.saturating_sub(before.spent);
    let used = before.spares.saturating_sub(after.spares);
    let blocks = match device.health() {
        Health::Faulted => u64::from(used).saturating_add(1),
        _ => u64::from(used),
    };
    let most = blocks
        .saturating_mul(u64::from(PAGES).saturating_mul(2))
        .saturating_add(1);
    if spent > most {
        return Err(Wrong::Cost { spent, used });
    }
    Ok(spent)
}

/// A slot is answered just while the device is at work; and one that is worn out has no spare block.
fn answered(device: &Device, answered: bool) -> Result<(), Wrong> {
    match (device.health(), answered) {
        (Health::Working, true) => Ok(()),
        (Health::Working, false) => Err(Wrong::Unanswered),
        (_, true) => Err(Wrong::Answered),
        (Health::Faulted, false) => Ok(()),
        (Health::WornOut, false) => match device.spares() {
            0 => Ok(()),
            spares => Err(Wrong::Early { spares }),
        },
    }
}

/// A slot of the die. Says whether it was answered.
fn carried<K: Kind>(
    alloc: Global,
    die: &mut K,
    pages: &mut Pages,
    most: &mut u64,
) -> Result<bool, Wrong> {
    let before = read_meter(die.device());
    let said = die.carry(alloc);
    let spent = cost(before, die.device())?;
    if spent > *most {
        *most = spent;
    }
    answered(die.device(), said.is_ok())?;
    match said {
        Ok(Some(act)) => {
            pages.take(act)?;
            Ok(true)
        }
        Ok(None) => Ok(true),
        Err(_) => Ok(false),
    }
}

/// Where each page lies.
fn places<K: Kind>(alloc: Global, die: &K, logical: u32) -> Result<Vec<Option<Place>>, Wrong> {
    let mut places = Vec::new(alloc);
    for page in 0..logical {
        places.push(die.place(page))?;
    }
    Ok(places)
}

/// Each page that lies somewhere has its last finished write there, and no other one was written.
fn all_there(
    device: &mut Device,
    logical: u32,
    places: &[Option<Place>],
    pages: &Pages,
) -> Result<(), Wrong> {
    for page in 0..logical {
        let bytes = match places.get(page as usize) {
            Some(Some(place)) => read_cell(device, *place),
            _ => Some(PageData::BLANK),
        };
        if bytes != Some(pages.of(page)) {
            return Err(Wrong::Lost { page });
        }
    }
    Ok(())
}

/// The die is given up: unless the part had a fault, each page is read from its device.
fn give_up<K: Kind>(
    alloc: Global,
    die: K,
    logical: u32,
    pages: Pages,
    most: u64,
) -> Result<Ended, Wrong> {
    let places = places(alloc, &die, logical)?;
    let mut device = die.into_device();
    let health = device.health();
    if health != Health::Faulted {
        all_there(&mut device, logical, places.as_slice(), &pages)?;
    }
    Ok(Ended {
        health,
        spares: device.spares(),
        calls: pages.failing_calls(),
        most,
    })
}

/// So many asks of a die, each with its slots, unless one is refused before.
pub(crate) fn play<K: Kind>(
    alloc: Global,
    die: K,
    logical: u32,
    asks: u32,
) -> Result<Ended, Wrong> {
    let mut die = die;
    let mut pages = Pages::new(alloc, logical)?;
    let mut most = 0;
    for ask in 0..asks {
        die.ask(alloc, ask)?;
        for _ in 0..SLOTS {
            if !carried(alloc, &mut die, &mut pages, &mut most)? {
                return give_up(alloc, die, logical, pages, most);
            }
        }
    }
    give_up(alloc, die, logical, pages, most)
}
