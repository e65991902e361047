//! With which other numbers, one at a time, a plan is found. Each number that is named was tried.

use crate::datasheets::{Asked, Need, Needs, Part, Sheet};
use crate::decimals::Decimal;
use crate::faults::{Advice, LongerTime};
use crate::searches::{Aim, search};
use crate::terms_searches::search_terms;
use slot_types::{MAX_BLOCKS, MAX_SLOT, Refusal};
use std::alloc::Global;

/// A time is tried up to this many times as long as it is.
const MOST_TIMES: u32 = 1024;

/// How many microseconds a millisecond and a second have.
const MILLI: u32 = 1_000;

const UNIT: u32 = 1_000_000;

/// A time of a task.
#[derive(Clone, Copy, Drop)]
enum Time {
    Period,
    Every,
    Deadline,
}

impl Time {
    fn key(self) -> &'static str {
        match self {
            Time::Period => "period_ms",
            Time::Every => "at_most_once_in_s",
            Time::Deadline => "deadline_ms",
        }
    }

    /// How many microseconds its unit has.
    fn unit(self) -> u32 {
        match self {
            Time::Period | Time::Deadline => MILLI,
            Time::Every => UNIT,
        }
    }

    /// How long it is, in microseconds, where a task has it.
    fn of(self, need: &Need) -> Option<u32> {
        match (self, need.asked) {
            (Time::Period, Asked::Periodic { period_us, .. }) => Some(period_us),
            (Time::Every, Asked::Burst { every_us, .. }) => Some(every_us),
            (Time::Deadline, _) => need.deadline_us,
            _ => None,
        }
    }

    /// What a task needs, with this time changed.
    fn changed(self, need: Need, us: u32) -> Need {
        match (self, need.asked) {
            (Time::Period, Asked::Periodic { reads, writes, .. }) => {
                let asked = Asked::Periodic {
                    period_us: us,
                    reads,
                    writes,
                };
                Need { asked, ..need }
            }
            (Time::Every, Asked::Burst { pages, .. }) => {
                let asked = Asked::Burst {
                    pages,
                    every_us: us,
                };
                Need { asked, ..need }
            }
            (Time::Deadline, _) => Need {
                deadline_us: Some(us),
                ..need
            },
            _ => need,
        }
    }
}

/// A number of a datasheet.
#[derive(Clone, Copy)]
enum Changed {
    Logical,
    Blocks,
    /// A time of the task at `place`, the first being 0, that is longer than its present `us` microseconds by a number
    /// of its units.
    Longer { place: usize, time: Time, us: u32 },
}

/// A time of `us` microseconds, made longer by `units` of its units.
fn longer(time: Time, us: u32, units: u32) -> u32 {
    us.saturating_add(units.saturating_mul(time.unit()))
}

/// What a task needs, with a number changed.
fn need_with(place: usize, need: Need, which: Changed, n: u32) -> Need {
    match which {
        Changed::Longer {
            place: changed,
            time,
            us,
        } if changed == place => time.changed(need, longer(time, us, n)),
        _ => need,
    }
}

/// A datasheet with one of its numbers changed.
fn sheet_with(alloc: Global, sheet: &Sheet, which: Changed, n: u32) -> Result<Sheet, Refusal> {
    let mut part = sheet.part;
    match which {
        Changed::Logical => part.logical = n,
        Changed::Blocks => part.blocks = n,
        Changed::Longer { .. } => {}
    }
    let mut changed = Needs::new(alloc);
    let needs = sheet.needs.as_slice();
    for place in 0..needs.len() {
        changed.push(need_with(place, needs[place], which, n))?;
    }
    Ok(Sheet {
        part,
        needs: changed,
    })
}

/// How long a slot is of a plan that is found for a datasheet, if one is.
fn found_slot(alloc: Global, sheet: &Sheet) -> Result<Option<u32>, Refusal> {
    if sheet.is_plain() {
        let searched = search(alloc, sheet, Aim::Any)?;
        Ok(searched.found.as_ref().map(|found| found.slot_us))
    } else {
        let searched = search_terms(alloc, sheet, Aim::Any)?;
        Ok(searched.found.as_ref().map(|found| found.slot_us))
    }
}

/// Whether a plan is found with one number changed.
fn finds(alloc: Global, sheet: &Sheet, which: Changed, n: u32) -> Result<bool, Refusal> {
    let changed = sheet_with(alloc, sheet, which, n)?;
    Ok(found_slot(alloc, &changed)?.is_some())
}

/// A number with which a plan is found, next to one with which none is. With the second none is found; with the first
/// one, if any.
fn nearest(
    alloc: Global,
    sheet: &Sheet,
    which: Changed,
    with: u32,
    without: u32,
) -> Result<Option<u32>, Refusal> {
    if with == without || !finds(alloc, sheet, which, with)? {
        return Ok(None);
    }
    let (mut with, mut without) = (with, without);
    for _ in 0..32 {
        let gap = with.abs_diff(without);
        if gap <= 1 {
            break;
        }
        let middle = with.min(without).saturating_add(gap / 2);
        if finds(alloc, sheet, which, middle)? {
            with = middle;
        } else {
            without = middle;
        }
    }
    Ok(Some(with))
}

/// How many units a time may be longer: it is then 1,024 times as long at most, and no longer than it may be in a
/// datasheet.
fn most_units(time: Time, us: u32) -> u32 {
    let longest = MAX_SLOT * MILLI;
    let more = us.saturating_mul(MOST_TIMES).min(longest);
    more.saturating_sub(us) / time.unit().max(1)
}

/// How many units longer a deadline is with which a plan is found. With a later deadline tokens are held for longer, and a
/// cap is greater, so that a deadline may be too late, too: what is twice as long is tried first, then four times, and so
/// on.
fn later_deadline(
    alloc: Global,
    sheet: &Sheet,
    which: Changed,
    us: u32,
) -> Result<Option<u32>, Refusal> {
    let most = most_units(Time::Deadline, us);
    let mut without: u32 = 0;
    let mut longer = us;
    for _ in 0..10 {
        let with = (longer / MILLI).max(1).min(most);
        if let Some(units) = nearest(alloc, sheet, which, with, without)? {
            return Ok(Some(units));
        }
        without = with;
        longer = longer.saturating_mul(2).saturating_add(us);
    }
    Ok(None)
}

/// How many units longer a time of a task is with which a plan is found.
fn longer_units(
    alloc: Global,
    sheet: &Sheet,
    place: usize,
    time: Time,
    us: u32,
) -> Result<Option<u32>, Refusal> {
    let which = Changed::Longer { place, time, us };
    match time {
        Time::Period | Time::Every => nearest(alloc, sheet, which, most_units(time, us), 0),
        Time::Deadline => later_deadline(alloc, sheet, which, us),
    }
}

/// A longer time of a task with which a plan is found, if the task has it.
fn longer_time(
    alloc: Global,
    sheet: &Sheet,
    place: usize,
    time: Time,
) -> Result<Option<LongerTime>, Refusal> {
    let Some(need) = sheet.needs.as_slice().get(place) else {
        return Ok(None);
    };
    let Some(us) = time.of(need) else {
        return Ok(None);
    };
    let Some(units) = longer_units(alloc, sheet, place, time, us)? else {
        return Ok(None);
    };
    Ok(Some(LongerTime {
        nth: u32::try_from(place).unwrap_or(u32::MAX).saturating_add(1),
        key: time.key(),
        time: Decimal {
            parts: longer(time, us, units),
            unit: time.unit(),
        },
    }))
}

/// The longer times of all tasks, one at a time, with which a plan is found.
fn longer_times(alloc: Global, sheet: &Sheet) -> Result<Vec<LongerTime>, Refusal> {
    let mut times = Vec::new(alloc);
    for place in 0..sheet.needs.len() {
        for time in [Time::Period, Time::Every, Time::Deadline] {
            if let Some(longer) = longer_time(alloc, sheet, place, time)? {
                times.push(longer)?;
            }
        }
    }
    Ok(times)
}

/// A datasheet that doesn't say how long a slot is to be.
fn without_slot(alloc: Global, sheet: &Sheet) -> Result<Sheet, Refusal> {
    Ok(Sheet {
        part: Part {
            slot_us: None,
            ..sheet.part
        },
        needs: Needs::from_vec(Vec::from_slice(alloc, sheet.needs.as_slice())?),
    })
}

/// How long a slot is of a plan that is found where that isn't asked for, for a datasheet that asks for it.
fn other_slot(alloc: Global, sheet: &Sheet) -> Result<Option<u32>, Refusal> {
    match sheet.part.slot_us {
        Some(_) => found_slot(alloc, &without_slot(alloc, sheet)?),
        None => Ok(None),
    }
}

/// With which numbers, one at a time, a plan is found for a datasheet that has none. The only refusal is NoMemory.
pub fn advice_of(alloc: Global, sheet: &Sheet) -> Result<Advice, Refusal> {
    Ok(Advice {
        slot_us: other_slot(alloc, sheet)?,
        logical: nearest(alloc, sheet, Changed::Logical, 1, sheet.part.logical)?,
        blocks: nearest(alloc, sheet, Changed::Blocks, MAX_BLOCKS, sheet.part.blocks)?,
        times: longer_times(alloc, sheet)?,
    })
}
