//! How long a slot may be, and what periods come to in slots.

use crate::datasheets::{Asked, Need, Sheet};
use slot_types::MAX_SLOT;
use std::alloc::{AllocError, Global};

/// The root of the greatest hyperperiod: of a divisor of it and its quotient one is at most this.
const ROOT: u32 = 1024;

/// The most lengths that are tried.
const MOST: usize = 24;

fn greatest_divisor(a: u32, b: u32) -> u32 {
    let (mut a, mut b) = (a, b);
    for _ in 0..64 {
        if b == 0 {
            break;
        }
        (a, b) = (b, a % b);
    }
    a
}

/// The least number that both divide, where it is at most 1,048,576.
pub fn least_multiple(a: u32, b: u32) -> Option<u32> {
    let shared = u64::from(greatest_divisor(a, b)).max(1);
    let common = u64::from(a) / shared * u64::from(b);
    match u32::try_from(common) {
        Ok(common) if common <= MAX_SLOT => Some(common),
        _ => None,
    }
}

/// The time between two pages of a rate, in microseconds, where it is a whole number of them; else 0, which each divides.
fn time_between_pages(micropages_per_s: u32) -> u32 {
    let of_a_page: u64 = 1_000_000_000_000;
    let each = u64::from(micropages_per_s).max(1);
    if of_a_page % each != 0 {
        return 0;
    }
    u32::try_from(of_a_page / each).unwrap_or(0)
}

/// How often a task asks, in microseconds.
fn period_us(need: &Need) -> u32 {
    match need.asked {
        Asked::Periodic { period_us, .. } => period_us,
        Asked::Burst { every_us, .. } => every_us,
        Asked::Rate { micropages_per_s } => time_between_pages(micropages_per_s),
    }
}

/// The greatest time, in microseconds, that divides each period and each deadline.
fn shared_time(needs: &[Need]) -> u32 {
    let mut shared: u32 = 0;
    for need in needs {
        shared = greatest_divisor(shared, period_us(need));
        shared = greatest_divisor(shared, need.deadline_us.unwrap_or(0));
    }
    shared
}

/// The lengths of a slot that are tried, in microseconds: that of the datasheet, if it says one; else from the shortest on
/// those that divide each period and each deadline, rising, and then the shortest itself.
pub fn lengths(alloc: Global, sheet: &Sheet) -> Result<Vec<u32>, AllocError> {
    match sheet.part.slot_us {
        Some(slot_us) => Vec::from_slice(alloc, &[slot_us]),
        None => shared_lengths(alloc, sheet),
    }
}

/// From the shortest length on those that divide each period and each deadline, rising, and then the shortest itself.
fn shared_lengths(alloc: Global, sheet: &Sheet) -> Result<Vec<u32>, AllocError> {
    let shortest = sheet.shortest_slot().max(1);
    let shared = shared_time(sheet.needs.as_slice());
    let mut lengths = Vec::with_capacity(alloc, MOST)?;
    let most = shared / shortest;
    for back in 0..most {
        let parts = most.saturating_sub(back).max(1);
        if shared % parts == 0 {
            lengths.push(shared / parts)?;
        }
        if lengths.len() == MOST || back == 65_536 {
            break;
        }
    }
    lengths.push(shortest)?;
    Ok(lengths)
}

/// The periods in slots: as they are, or each but the shortest as the greatest power of two times the shortest that it
/// reaches, so that each divides the longest.
pub fn periods(
    alloc: Global,
    needs: &[Need],
    slot_us: u32,
    powers: bool,
) -> Result<Vec<u32>, AllocError> {
    let mut shortest = MAX_SLOT;
    for need in needs {
        shortest = shortest.min(need.in_slots(slot_us).period);
    }
    let mut periods = Vec::with_capacity(alloc, needs.len())?;
    for need in needs {
        let own = need.in_slots(slot_us).period.min(MAX_SLOT);
        periods.push(if powers { power_of(shortest, own) } else { own })?;
    }
    Ok(periods)
}

fn power_of(shortest: u32, most: u32) -> u32 {
    let mut power = shortest;
    for _ in 0..32 {
        let next = power.saturating_mul(2);
        if power == 0 || next > most {
            break;
        }
        power = next;
    }
    power
}

/// What all of these divide, where it is at most 1,048,576; none where one of them is 0.
pub fn common_of(periods: &[u32]) -> Option<u32> {
    let mut common: u32 = 1;
    for period in periods {
        if *period == 0 {
            return None;
        }
        common = least_multiple(common, *period)?;
    }
    Some(common)
}

/// The divisors of a number up to 1,048,576, rising.
pub fn divisors(alloc: Global, number: u32) -> Result<Vec<u32>, AllocError> {
    let mut divisors = Vec::new(alloc);
    for small in 1..=ROOT {
        if small > number / small {
            break;
        }
        if number % small == 0 {
            divisors.push(small)?;
            divisors.push(number / small)?;
        }
    }
    divisors.as_mut_slice().sort(alloc)?;
    Ok(divisors)
}

/// The greatest of rising numbers that is at most this; none where all are greater.
pub fn greatest_upto(rising: &[u32], most: u32) -> Option<u32> {
    let within = rising.partition_point(|number| *number <= most);
    rising.get(within.checked_sub(1)?).copied()
}
