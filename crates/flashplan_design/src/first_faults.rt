//! The first fault of a plan's table: the version, since the other keys are judged by it; and then in the order in which
//! the reader of a plan judges: the top table, and each task; and in a table a key too many, a key too few, and a value of
//! another kind. The reader answers the cause alone.

use crate::faults::{Fault, Place};
use toml::{Table, Value};

/// The keys on top: all but the last are those of a plan without times.
const TOP_KEYS: [&str; 9] = [
    "version",
    "dies",
    "blocks",
    "pages",
    "erase_slots",
    "logical",
    "alpha",
    "task",
    "common",
];

/// The keys of a task: the first two are those of a plan without times.
const TASK_KEYS: [&str; 6] = ["die", "cap", "period", "collect_period", "work", "writes"];

/// The keys that a plan has in a place, with times or without.
fn keys_of(place: Place, timed: bool) -> &'static [&'static str] {
    match (place, timed) {
        (Place::Top, true) => &TOP_KEYS,
        (Place::Top, false) => &TOP_KEYS[..8],
        (Place::Task(_), true) => &TASK_KEYS,
        (Place::Task(_), false) => &TASK_KEYS[..2],
    }
}

/// The whole number from 0 to 4,294,967,295 at a key.
fn number_at(table: &Table, key: &str) -> Option<u32> {
    let number = table.get(key)?.as_integer()?;
    u32::try_from(number).ok()
}

/// The first key that isn't one of these, in the order of the letters.
fn extra_key<'a>(table: &'a Table, keys: &[&str]) -> Option<&'a str> {
    for key in table.keys() {
        if !keys.iter().any(|own| *own == key.as_str()) {
            return Some(key.as_str());
        }
    }
    None
}

/// The first of these keys that isn't there.
fn missing_key(table: &Table, keys: &'static [&'static str]) -> Option<&'static str> {
    for key in keys {
        if table.get(*key).is_none() {
            return Some(*key);
        }
    }
    None
}

/// The first of these keys that has no whole number, though it isn't that of the tasks.
fn unnumbered_key(table: &Table, keys: &'static [&'static str]) -> Option<&'static str> {
    for key in keys {
        if *key != "task" && number_at(table, *key).is_none() {
            return Some(*key);
        }
    }
    None
}

/// The first fault of the keys and numbers of the top table or of a task, in a plan with times or without.
fn table_fault<'a>(table: &'a Table, place: Place, timed: bool) -> Option<Fault<'a>> {
    let keys = keys_of(place, timed);
    if let Some(key) = extra_key(table, keys) {
        let version = if timed { 2 } else { 1 };
        return Some(Fault::Extra {
            place,
            key,
            version,
        });
    }
    if let Some(key) = missing_key(table, keys) {
        return Some(Fault::Missing { place, key });
    }
    let key = unnumbered_key(table, keys)?;
    Some(Fault::NotNumber { place, key })
}

/// The tasks, where they are an array of tables.
fn task_tables(table: &Table) -> Option<&[Value]> {
    let tables = table.get("task")?.as_array()?;
    if tables.iter().all(|task| task.as_table().is_some()) {
        Some(tables.as_slice())
    } else {
        None
    }
}

/// The first fault of the tasks.
fn tasks_fault<'a>(tasks: &'a [Value], timed: bool) -> Option<Fault<'a>> {
    for i in 0..tasks.len() {
        let table = tasks[i].as_table()?;
        if let Some(fault) = table_fault(table, Place::Task(i), timed) {
            return Some(fault);
        }
    }
    None
}

/// The fault of the version, where it isn't one that is read.
fn version_fault(table: &Table) -> Option<Fault<'_>> {
    if table.get("version").is_none() {
        return Some(Fault::NoVersion);
    }
    match number_at(table, "version") {
        Some(1 | 2) => None,
        Some(other) => Some(Fault::Version(other)),
        None => Some(Fault::NotNumber {
            place: Place::Top,
            key: "version",
        }),
    }
}

/// The first fault of a plan's table.
pub fn first_fault(table: &Table) -> Option<Fault<'_>> {
    if let Some(fault) = version_fault(table) {
        return Some(fault);
    }
    let timed = number_at(table, "version") == Some(2);
    if let Some(fault) = table_fault(table, Place::Top, timed) {
        return Some(fault);
    }
    match task_tables(table) {
        Some(tasks) => tasks_fault(tasks, timed),
        None => Some(Fault::NotTables),
    }
}
