//! Lists of numbers that are read and set at any place: beyond the end there is a value of the caller's, and nothing is set.

/// The number in a place, or `other` beyond the end.
pub(crate) fn at(list: &[u32], place: usize, other: u32) -> u32 {
    match list.get(place) {
        Some(number) => *number,
        None => other,
    }
}

/// Sets the number in a place, if the place is there.
pub(crate) fn set(list: &mut [u32], place: usize, number: u32) {
    if place < list.len() {
        list[place] = number;
    }
}

/// Adds one to the number in a place.
pub(crate) fn add_one(list: &mut [u32], place: usize) {
    if place < list.len() {
        list[place] = list[place].saturating_add(1);
    }
}

/// Takes one from the number in a place.
pub(crate) fn take_one(list: &mut [u32], place: usize) {
    if place < list.len() {
        list[place] = list[place].saturating_sub(1);
    }
}
