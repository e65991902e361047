//! Datasheets as texts.

ghost use Rattle.std.specs.Prelude.{◌≡◌, ◌≤◌, IfOk, IfSome, IsSomeAnd, Some, T, codes, option_and_then, option_map};
ghost use Rattle.std.specs.Float.Ieee.{eq};
ghost use Rattle.std.specs.List.{AllZip};
ghost use Rattle.toml.specs.Data.{Items, as_array, as_float, as_str, get_member};
ghost use Rattle.toml.specs.Parse.{parse_document};
ghost use Rattle.toml.specs.View.{table_view, items_view, view};
ghost use Rattle.flashplan_fit.specs.Sheets.{AreNeedsIn, Asks, IsNeedIn, IsNeedOf, IsPartOf, IsSheetIn, IsSheetOf, IsSuspends};
ghost use Rattle.flashplan_fit.specs.Sheets.{PartsAt, PartsOrNone, PartsOrZero, SaysParts, TurnAt};
ghost use Rattle.flashplan_fit.specs.Sheets.{fraction, number_at, suspends_word, whole_of};

use crate::datasheets::{Asked, Need, Needs, Part, Sheet, Suspends};
use crate::decimals::Decimal;
use crate::faults::FitFault;
use crate::places::{place_after, place_of};
use crate::sheet_faults::{Level, Position, SheetFault, Wrong};
use slot_types::{MAX_BLOCKS, MAX_OPS, MAX_PAGES, MAX_SLOT, MIN_BLOCKS, MIN_PAGES, Refusal};
use std::alloc::{AllocError, Global};
use std::num::saturating_f64_to_u32;
use std::string::ToString;
use toml::{Table, Value};

/// The longest time, in microseconds.
const MAX_US: u32 = 100_000_000;

/// The most erases of a block.
const MAX_ERASES: u32 = 100_000_000;

/// What is added before a number is cut to a whole one.
const HALF: f64 = 0.5;

/// The most tasks of a die.
const MAX_TASKS: usize = 16;

/// How many parts each unit has. The part of a time is a microsecond: a microsecond has 1, a millisecond `MILLI`, a
/// second `UNIT`. The part of a rate is a millionth of a page a second: a page a second has `UNIT`.
const MICROSECOND: u32 = 1;

const MILLI: u32 = 1_000;

const UNIT: u32 = 1_000_000;

/// The longest time between two bursts in microseconds, and the most millionths of a page a second.
const MAX_PARTS: u32 = 4_294 * UNIT;

/// The keys on top.
const TOP_KEYS: [&str; 15] = [
    "read_us",
    "program_us",
    "program_typical_us",
    "erase_us",
    "suspends",
    "suspend_us",
    "resume_us",
    "transfer_us",
    "margin_us",
    "slot_us",
    "endurance",
    "blocks",
    "pages",
    "logical",
    "task",
];

/// The keys of a task.
const TASK_KEYS: [&str; 7] = [
    "period_ms",
    "reads",
    "writes",
    "burst_pages",
    "at_most_once_in_s",
    "pages_per_s",
    "deadline_ms",
];

/// Those of a task that asks for reads and writes once a period, of one that writes bursts, and of one that writes at a rate.
const PERIODIC_KEYS: [&str; 4] = ["period_ms", "reads", "writes", "deadline_ms"];

const BURST_KEYS: [&str; 3] = ["burst_pages", "at_most_once_in_s", "deadline_ms"];

const RATE_KEYS: [&str; 2] = ["pages_per_s", "deadline_ms"];

/// Why a table isn't a datasheet's; or memory ran out.
#[derive(Drop)]
enum TableFault {
    NoMemory,
    Wrong(Wrong),
}

impl From<AllocError> for TableFault {
    fn from(_: AllocError) -> TableFault {
        TableFault::NoMemory
    }
}

impl From<Refusal> for TableFault {
    fn from(_: Refusal) -> TableFault {
        TableFault::NoMemory
    }
}

/// The whole number of a value, from 0 to 4,294,967,295.
fn number_of(value: &Value) -> Option<u32>
    ensures { result ≡ whole_of (view value.now) }
{
    match value.as_integer() {
        Some(number) => u32::try_from(number).ok(),
        None => None,
    }
}

/// The number of parts that a decimal number stands for, where a unit has `unit` parts: the decimal number is the
/// nearest number to them.
fn decimal_parts(decimal: f64, unit: u32) -> Option<u32>
    ensures { IfSome result (λ parts. T (eq decimal (fraction unit parts))) }
{
    let parts = saturating_f64_to_u32(decimal * f64::from(unit) + HALF);
    if decimal == f64::from(parts) / f64::from(unit) {
        Some(parts)
    } else {
        None
    }
}

/// How many parts of a unit a value says by a decimal number.
fn fraction_of(value: &Value, unit: u32) -> Option<u32>
    ensures { IfSome result (λ parts.
        IsSomeAnd (as_float (view value.now)) (λ x. T (eq x (fraction unit parts)))) }
{
    match value.as_float() {
        Some(decimal) => decimal_parts(decimal, unit),
        None => None,
    }
}

/// How many parts of a unit a value says. None where it is no number, or one that is finer than the parts.
fn parts_of(value: &Value, unit: u32) -> Option<u32>
    ensures { IfSome result (SaysParts unit (view value.now)) }
{
    match number_of(value) {
        Some(units) => units.checked_mul(unit),
        None => fraction_of(value, unit),
    }
}

/// What a table has at a key.
fn find<'a>(table: &'a Table, key: &str) -> Option<&'a Value>
    ensures { option_map (λ v. view v.now) result ≡ get_member key.now (table_view table.now) }
{
    table.get(key)
}

/// The whole number at a key.
fn number_at(table: &Table, key: &str) -> Option<u32>
    ensures { result ≡ number_at (table_view table.now) key.now }
{
    let Some(value) = find(table, key) else {
        return None;
    };
    number_of(value)
}

/// A key, with the range of its number.
#[derive(Clone, Copy)]
struct Ranged {
    level: Level,
    key: &'static str,
    least: u32,
    most: u32,
}

impl Ranged {
    fn on_top(key: &'static str, least: u32, most: u32) -> Ranged
        ensures { result.key.now ≡ key.now }
    {
        Ranged {
            level: Level::Top,
            key,
            least,
            most,
        }
    }

    fn in_task(nth: u32, key: &'static str, least: u32, most: u32) -> Ranged
        ensures key { result.key.now ≡ key.now }
        ensures most { result.most ≡ most }
    {
        Ranged {
            level: Level::Task(nth),
            key,
            least,
            most,
        }
    }
}

/// The number at a key, within its range.
fn number_in(table: &Table, ranged: Ranged) -> Result<u32, Wrong>
    ensures said { IfOk result (λ n. number_at (table_view table.now) ranged.key.now ≡ Some n) }
    ensures most { IfOk result (λ n. n ≤ ranged.most) }
{
    let Ranged {
        level,
        key,
        least,
        most,
    } = ranged;
    match number_at(table, key) {
        Some(number) if least <= number && number <= most => Ok(number),
        _ => Err(Wrong::Number {
            level,
            key,
            least,
            most,
        }),
    }
}

/// A count at a key of the top table.
fn count_in(table: &Table, key: &'static str, least: u32, most: u32) -> Result<u32, Wrong>
    ensures { IfOk result (λ n. number_at (table_view table.now) key.now ≡ Some n) }
{
    number_in(table, Ranged::on_top(key, least, most))
}

/// A key whose number has a unit, with its range in parts of the unit.
#[derive(Clone, Copy)]
struct Timed {
    level: Level,
    key: &'static str,
    least: u32,
    most: u32,
    unit: u32,
}

impl Timed {
    /// A time of the part, in microseconds.
    fn on_top(key: &'static str, least: u32, most: u32) -> Timed
        ensures key { result.key.now ≡ key.now }
        ensures unit { result.unit ≡ 1 }
    {
        Timed {
            level: Level::Top,
            key,
            least,
            most,
            unit: MICROSECOND,
        }
    }

    /// A number of a task.
    fn in_task(nth: u32, key: &'static str, most: u32, unit: u32) -> Timed
        ensures key { result.key.now ≡ key.now }
        ensures unit { result.unit ≡ unit }
    {
        Timed {
            level: Level::Task(nth),
            key,
            least: 1,
            most,
            unit,
        }
    }

    fn wrong(self) -> Wrong {
        Wrong::Time {
            level: self.level,
            key: self.key,
            least: Decimal {
                parts: self.least,
                unit: self.unit,
            },
            most: Decimal {
                parts: self.most,
                unit: self.unit,
            },
        }
    }
}

/// The number of a value, in parts of its unit, within its range.
fn parts_in(value: &Value, timed: Timed) -> Result<u32, Wrong>
    ensures { IfOk result (SaysParts timed.unit (view value.now)) }
{
    match parts_of(value, timed.unit) {
        Some(parts) if timed.least <= parts && parts <= timed.most => Ok(parts),
        _ => Err(timed.wrong()),
    }
}

/// The number at a key, in parts of its unit.
fn parts_at(table: &Table, timed: Timed) -> Result<u32, Wrong>
    ensures { IfOk result (PartsAt (table_view table.now) timed.key.now timed.unit) }
{
    match find(table, timed.key) {
        Some(value) => parts_in(value, timed),
        None => Err(timed.wrong()),
    }
}

/// The number at a key, if there is one.
fn parts_or_none(table: &Table, timed: Timed) -> Result<Option<u32>, Wrong>
    ensures { IfOk result (PartsOrNone (table_view table.now) timed.key.now timed.unit) }
{
    match find(table, timed.key) {
        Some(value) => Ok(Some(parts_in(value, timed)?)),
        None => Ok(None),
    }
}

/// The number at a key, 0 where there is none.
fn parts_or_zero(table: &Table, timed: Timed) -> Result<u32, Wrong>
    ensures { IfOk result (PartsOrZero (table_view table.now) timed.key.now timed.unit) }
{
    match find(table, timed.key) {
        Some(value) => parts_in(value, timed),
        None => Ok(0),
    }
}

/// A time at a key of the top table.
fn time_in(table: &Table, key: &'static str) -> Result<u32, Wrong>
    ensures { IfOk result (PartsAt (table_view table.now) key.now 1) }
{
    parts_at(table, Timed::on_top(key, 1, MAX_US))
}

/// A time at a key of the top table, 0 where there is none.
fn time_or_zero(table: &Table, key: &'static str) -> Result<u32, Wrong>
    ensures { IfOk result (PartsOrZero (table_view table.now) key.now 1) }
{
    parts_or_zero(table, Timed::on_top(key, 0, MAX_US))
}

/// How many erases a word says that a part suspends.
fn suspends_of(word: &str) -> Option<Suspends>
    ensures { IfSome result (λ said. word.now ≡ suspends_word said) }
{
    match word {
        "any" => Some(Suspends::Any),
        "one" => Some(Suspends::One),
        "none" => Some(Suspends::No),
        _ => None,
    }
}

/// How many erases a value says that a part suspends.
fn suspends_said(value: &Value) -> Result<Suspends, Wrong>
    ensures { IfOk result (λ said. as_str (view value.now) ≡ Some (suspends_word said)) }
{
    let Some(word) = value.as_str() else {
        return Err(Wrong::Suspends);
    };
    match suspends_of(word) {
        Some(said) => Ok(said),
        None => Err(Wrong::Suspends),
    }
}

/// How many erases a part suspends at a time.
fn suspends_in(table: &Table) -> Result<Suspends, Wrong>
    ensures { IfOk result (IsSuspends (table_view table.now)) }
{
    match find(table, "suspends") {
        Some(value) => suspends_said(value),
        None => Ok(Suspends::Any),
    }
}

/// How long an erase is suspended or resumed, which isn't asked of a part that suspends none.
fn turn_in(table: &Table, key: &'static str, suspends: Suspends) -> Result<u32, Wrong>
    ensures { IfOk result (TurnAt (table_view table.now) key.now suspends) }
{
    match suspends {
        Suspends::No => time_or_zero(table, key),
        Suspends::One | Suspends::Any => parts_at(table, Timed::on_top(key, 0, MAX_US)),
    }
}

/// How long most programs take: at most as long as the longest.
fn typical_in(table: &Table, program_us: u32) -> Result<Option<u32>, Wrong>
    ensures { IfOk result (PartsOrNone (table_view table.now) (codes "program_typical_us") 1) }
{
    parts_or_none(table, Timed::on_top("program_typical_us", 1, program_us))
}

/// How long a slot is to be.
fn slot_in(table: &Table) -> Result<Option<u32>, Wrong>
    ensures { IfOk result (PartsOrNone (table_view table.now) (codes "slot_us") 1) }
{
    parts_or_none(table, Timed::on_top("slot_us", 1, MAX_US))
}

/// How often a block may be erased.
fn endurance_in(table: &Table) -> Result<Option<u32>, Wrong>
    ensures { IfOk result (PartsOrNone (table_view table.now) (codes "endurance") 1) }
{
    parts_or_none(table, Timed::on_top("endurance", 1, MAX_ERASES))
}

/// What the top table says of the part.
fn part_of(table: &Table) -> Result<Part, Wrong>
    ensures { IfOk result (IsPartOf (table_view table.now)) }
{
    let read_us = time_in(table, "read_us")?;
    let program_us = time_in(table, "program_us")?;
    let suspends = suspends_in(table)?;
    Ok(Part {
        read_us,
        program_us,
        program_typical_us: typical_in(table, program_us)?,
        erase_us: time_in(table, "erase_us")?,
        suspends,
        suspend_us: turn_in(table, "suspend_us", suspends)?,
        resume_us: turn_in(table, "resume_us", suspends)?,
        transfer_us: time_or_zero(table, "transfer_us")?,
        margin_us: time_or_zero(table, "margin_us")?,
        slot_us: slot_in(table)?,
        endurance: endurance_in(table)?,
        blocks: count_in(table, "blocks", MIN_BLOCKS, MAX_BLOCKS)?,
        pages: count_in(table, "pages", MIN_PAGES, MAX_PAGES)?,
        logical: count_in(table, "logical", 1, MAX_BLOCKS * MAX_PAGES)?,
    })
}

/// A number of operations at a key of a task.
fn ops_in(table: &Table, nth: u32, key: &'static str) -> Result<u8, Wrong>
    ensures { IfOk result (λ n. number_at (table_view table.now) key.now ≡ Some n) }
{
    let ops = number_in(table, Ranged::in_task(nth, key, 0, MAX_OPS))?;
    Ok(ops as u8)
}

/// The ways in which tasks ask.
#[derive(Clone, Copy, Drop)]
enum Kind {
    Periodic,
    Burst,
    Rate,
}

impl Kind {
    fn of(table: &Table) -> Kind {
        if table.contains_key("burst_pages") || table.contains_key("at_most_once_in_s") {
            Kind::Burst
        } else if table.contains_key("pages_per_s") {
            Kind::Rate
        } else {
            Kind::Periodic
        }
    }

    /// The keys of a task that asks so.
    fn keys(self) -> &'static [&'static str] {
        match self {
            Kind::Periodic => &PERIODIC_KEYS,
            Kind::Burst => &BURST_KEYS,
            Kind::Rate => &RATE_KEYS,
        }
    }
}

/// A number at a key of a task, from 1 on, in parts of its unit.
fn parts_of_task(
    table: &Table,
    nth: u32,
    key: &'static str,
    most: u32,
    unit: u32,
) -> Result<u32, Wrong>
    ensures { IfOk result (PartsAt (table_view table.now) key.now unit) }
{
    parts_at(table, Timed::in_task(nth, key, most, unit))
}

/// What a task's table says of reads and writes once a period.
fn periodic_of(table: &Table, nth: u32) -> Result<Asked, Wrong>
    ensures { IfOk result (Asks (table_view table.now)) }
{
    let period_us = parts_of_task(table, nth, "period_ms", MAX_SLOT * MILLI, MILLI)?;
    let reads = ops_in(table, nth, "reads")?;
    let writes = ops_in(table, nth, "writes")?;
    let work = u32::from(reads) + u32::from(writes);
    if work < 1 || work > MAX_OPS {
        return Err(Wrong::Work { nth });
    }
    Ok(Asked::Periodic {
        period_us,
        reads,
        writes,
    })
}

/// How many pages a burst has.
fn burst_pages_of(table: &Table, nth: u32) -> Result<u32, Wrong>
    ensures { IfOk result (λ n. number_at (table_view table.now) (codes "burst_pages") ≡ Some n) }
{
    number_in(table, Ranged::in_task(nth, "burst_pages", 1, MAX_SLOT))
}

/// What a task's table says of bursts.
fn burst_of(table: &Table, nth: u32) -> Result<Asked, Wrong>
    ensures { IfOk result (Asks (table_view table.now)) }
{
    let pages = burst_pages_of(table, nth)?;
    let every_us = parts_of_task(table, nth, "at_most_once_in_s", MAX_PARTS, UNIT)?;
    Ok(Asked::Burst { pages, every_us })
}

/// What a task's table says of a rate.
fn rate_of(table: &Table, nth: u32) -> Result<Asked, Wrong>
    ensures { IfOk result (Asks (table_view table.now)) }
{
    let micropages_per_s = parts_of_task(table, nth, "pages_per_s", MAX_PARTS, UNIT)?;
    Ok(Asked::Rate { micropages_per_s })
}

/// What a task's table says that it asks for.
fn asked_of(table: &Table, nth: u32) -> Result<Asked, Wrong>
    ensures { IfOk result (Asks (table_view table.now)) }
{
    match Kind::of(table) {
        Kind::Periodic => periodic_of(table, nth),
        Kind::Burst => burst_of(table, nth),
        Kind::Rate => rate_of(table, nth),
    }
}

/// A time at a key of a task, in microseconds, if there is one.
fn time_of_task(table: &Table, nth: u32, key: &'static str) -> Result<Option<u32>, Wrong>
    ensures { IfOk result (PartsOrNone (table_view table.now) key.now 1000) }
{
    parts_or_none(table, Timed::in_task(nth, key, MAX_SLOT * MILLI, MILLI))
}

/// What a task's table says that it needs.
fn need_of(table: &Table, nth: u32) -> Result<Need, Wrong>
    ensures { IfOk result (IsNeedOf (table_view table.now)) }
{
    let asked = asked_of(table, nth)?;
    let deadline_us = time_of_task(table, nth, "deadline_ms")?;
    Ok(Need { asked, deadline_us })
}

/// The first key of a table that isn't one of these, in the order of the letters.
fn unknown_key<'a>(table: &'a Table, keys: &[&str]) -> Option<&'a str> {
    for key in table.keys() {
        if !keys.iter().any(|own| *own == key.as_str()) {
            return Some(key.as_str());
        }
    }
    None
}

/// Refuses a table with a key that isn't one of these.
fn check_keys(alloc: Global, table: &Table, level: Level, keys: &[&str]) -> Result<(), TableFault> {
    match unknown_key(table, keys) {
        None => Ok(()),
        Some(key) => {
            let key = key.to_string(alloc)?;
            Err(TableFault::Wrong(Wrong::UnknownKey { level, key }))
        }
    }
}

/// Refuses a task's table with a key that doesn't go with its others.
fn check_kind(alloc: Global, table: &Table, nth: u32) -> Result<(), TableFault> {
    match unknown_key(table, Kind::of(table).keys()) {
        None => Ok(()),
        Some(key) => {
            let key = key.to_string(alloc)?;
            Err(TableFault::Wrong(Wrong::Kinds { nth, key }))
        }
    }
}

/// What a task's value says that it needs.
fn need_in(alloc: Global, value: &Value, nth: u32) -> Result<Need, TableFault>
    ensures { IfOk result (IsNeedIn (view value.now)) }
{
    let Some(table) = value.as_table() else {
        return Err(TableFault::Wrong(Wrong::Tasks));
    };
    check_keys(alloc, table, Level::Task(nth), &TASK_KEYS)?;
    check_kind(alloc, table, nth)?;
    match need_of(table, nth) {
        Ok(need) => Ok(need),
        Err(wrong) => Err(TableFault::Wrong(wrong)),
    }
}

/// What the tables of tasks say that they need.
fn needs_of(alloc: Global, tables: &[Value]) -> Result<Needs, TableFault>
    ensures { IfOk result (AllZip (λ v need. IsNeedIn (view v) need) tables.now) }
{
    let mut needs = Needs::new(alloc);
    for i in 0..tables.len() {
        let nth = u32::try_from(i).unwrap_or(u32::MAX).saturating_add(1);
        let need = need_in(alloc, &tables[i], nth)?;
        needs.push(need)?;
    }
    Ok(needs)
}

/// The tables of 1 to 16 tasks.
fn tables_of(table: &Table) -> Result<&[Value], Wrong>
    ensures { IfOk result (λ tables.
        option_and_then as_array (get_member (codes "task") (table_view table.now))
        ≡ Some (items_view tables.now)) }
{
    let Some(value) = find(table, "task") else {
        return Err(Wrong::Tasks);
    };
    let Some(items) = value.as_array() else {
        return Err(Wrong::Tasks);
    };
    if items.is_empty() || items.len() > MAX_TASKS {
        return Err(Wrong::Tasks);
    }
    Ok(items.as_slice())
}

/// What the tasks of a datasheet need.
#[tactic(auto, using(crate::proofs::Tables::needs_in))]
fn task_needs(alloc: Global, table: &Table) -> Result<Needs, TableFault>
    ensures { IfOk result (λ needs. (tasks : Items) ×
        (option_and_then as_array (get_member (codes "task") (table_view table.now)) ≡ Some tasks) ×
        AreNeedsIn tasks needs) }
{
    match tables_of(table) {
        Ok(tables) => needs_of(alloc, tables),
        Err(wrong) => Err(TableFault::Wrong(wrong)),
    }
}

/// The datasheet of a table.
fn sheet_of(alloc: Global, table: &Table) -> Result<Sheet, TableFault>
    ensures { IfOk result (IsSheetIn (table_view table.now)) }
{
    check_keys(alloc, table, Level::Top, &TOP_KEYS)?;
    let part = match part_of(table) {
        Ok(part) => part,
        Err(wrong) => return Err(TableFault::Wrong(wrong)),
    };
    let needs = task_needs(alloc, table)?;
    Ok(Sheet { part, needs })
}

/// What is wrong, and where.
fn fault(at: Option<Position>, wrong: Wrong) -> FitFault {
    FitFault::Sheet(SheetFault { at, wrong })
}

/// Why a text isn't TOML, and where.
fn toml_fault(alloc: Global, text: &[u8], error: &toml::de::Error) -> FitFault {
    let at = error.span().map(|span| place_after(text, span.start));
    match error.message().to_string(alloc) {
        Ok(message) => fault(at, Wrong::NotToml(message)),
        Err(_) => FitFault::Refused(Refusal::NoMemory),
    }
}

/// The table of a text.
fn table_of(alloc: Global, text: &str) -> Result<Table, FitFault>
    ensures { IfOk result (λ table. parse_document text.now ≡ Some (table_view table)) }
{
    match toml::table_from_str(alloc, text) {
        Ok(table) => Ok(table),
        Err(e) if e.is_memory() => Err(FitFault::Refused(Refusal::NoMemory)),
        Err(e) => Err(toml_fault(alloc, text.as_bytes(), &e)),
    }
}

/// Reads the text of a datasheet: what its part has, and what its tasks need. Refused with what is wrong with it, an
/// unknown key before a number that is missing or out of its range, or as NoMemory.
pub fn read_sheet(alloc: Global, text: &[u8]) -> Result<Sheet, FitFault>
    ensures { IfOk result (IsSheetOf text.now) }
{
    let text = match std::str::from_utf8(text) {
        Ok(text) => text,
        Err(e) => {
            let at = place_after(text, e.valid_up_to());
            return Err(fault(Some(at), Wrong::NotUtf8));
        }
    };
    let table = table_of(alloc, text)?;
    match sheet_of(alloc, &table) {
        Ok(sheet) => Ok(sheet),
        Err(TableFault::NoMemory) => Err(FitFault::Refused(Refusal::NoMemory)),
        Err(TableFault::Wrong(wrong)) => Err(fault(place_of(text, &wrong), wrong)),
    }
}
