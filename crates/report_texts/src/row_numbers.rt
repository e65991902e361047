//! The numbers of a report's row: all that it says but what its reads gave.

ghost use Rattle.std.specs.Prelude.{◌≡◌, [], List, length, option_map};
ghost use Rattle.csv.specs.Records.{field_at, fields_of};
ghost use Rattle.slot_types.specs.declared.pages.PageData.{PageData};
ghost use Rattle.text_base.specs.Fields.{has_text};
ghost use Rattle.text_base.specs.Fields.{field_or};
ghost use Rattle.text_base.specs.Number.{number_of};
ghost use Rattle.report_texts.specs.ReportRows.{has_outcome, if_filled, is_done, is_placed, is_sound, is_timed, kind_in, lateness_in};
ghost use Rattle.report_texts.specs.ReportRows.{number_at, row_in, sound_row};
ghost use Rattle.report_texts.specs.RowNumbers.{die_row, numbers_of, row_with, with_reads};
ghost use Rattle.text_base.specs.Words.{list_of};
ghost use Rattle.text_base.specs.Pages.{page_of};

use crate::reports::RowKind;
use csv::ByteRecord;
use late_cert::lateness;
use slot_types::{JobNo, MAX_DIES, MAX_JOBS, MAX_OPS, MAX_SLOT, MAX_TASKS, TaskNo};
use text_base::{count_pages, field_in, is_named, number};

/// A row without what its reads gave, and the die that it is of.
#[derive(Clone, Copy, PartialEq, Eq, Debug, Drop)]
pub struct RowNumbers {
    pub die: u32,
    pub row: RowKind,
    pub job: JobNo,
    pub task: TaskNo,
    pub release: u32,
    pub due: u32,
    pub work: u32,
    pub completion: Option<u32>,
    pub lateness: Option<i64>,
    pub given: Option<u32>,
}

/// What a row is about.
fn kind(fields: &ByteRecord) -> Option<RowKind>
    ensures { result ≡ kind_in (field_at (fields_of fields.now) 0) }
{
    if is_named(fields, 0, "job") {
        Some(RowKind::Job)
    } else if is_named(fields, 0, "collect") {
        Some(RowKind::Collect)
    } else if is_named(fields, 0, "waived") {
        Some(RowKind::Waived)
    } else {
        None
    }
}

/// The number in a field.
pub fn number_in(fields: &ByteRecord, place: usize) -> Option<u32>
    ensures { result ≡ number_at (fields_of fields.now) place }
{
    match fields.get(place) {
        Some(field) => number(field),
        None => None,
    }
}

/// The number in a field that may be empty.
fn number_if_filled(field: &[u8]) -> Option<Option<u32>>
    ensures { result ≡ if_filled number_of field.now }
{
    if field.is_empty() {
        return Some(None);
    }
    match number(field) {
        Some(n) => Some(Some(n)),
        None => None,
    }
}

/// A lateness: a number, with `-` before it where it is below 0.
pub fn read_lateness(field: &[u8]) -> Option<i64>
    ensures { result ≡ lateness_in field.now }
{
    let Some((sign, digits)) = field.split_first() else {
        return None;
    };
    if *sign != b'-' {
        return Some(i64::from(number(field)?));
    }
    let size = number(digits)?;
    if size == 0 {
        return None;
    }
    Some(-i64::from(size))
}

/// The lateness in a field that may be empty.
fn lateness_if_filled(field: &[u8]) -> Option<Option<i64>>
    ensures { result ≡ if_filled lateness_in field.now }
{
    if field.is_empty() {
        return Some(None);
    }
    match read_lateness(field) {
        Some(late) => Some(Some(late)),
        None => None,
    }
}

/// The numbers of a record.
#[tactic(auto, unfolding(crate::specs::ReportRows::row_in))]
pub fn row_numbers(fields: &ByteRecord) -> Option<RowNumbers>
    ensures { with_reads result (list_of page_of (field_or (fields_of fields.now) 10))
        ≡ row_in (fields_of fields.now) }
{
    let row = kind(fields)?;
    let die = number_in(fields, 1)?;
    let job = number_in(fields, 2)?;
    let task = number_in(fields, 3)?;
    let release = number_in(fields, 4)?;
    let due = number_in(fields, 5)?;
    let work = number_in(fields, 6)?;
    let completion = number_if_filled(field_in(fields, 7))?;
    let lateness = lateness_if_filled(field_in(fields, 8))?;
    let given = number_if_filled(field_in(fields, 9))?;
    Some(RowNumbers {
        die,
        row,
        job: JobNo(job),
        task: TaskNo(task),
        release,
        due,
        work,
        completion,
        lateness,
        given,
    })
}

/// Whether the numbers of a done row agree.
fn agrees(row: &RowNumbers, completion: u32) -> bool
    ensures { result ≡ is_done (row_with row.now []) completion }
{
    completion <= MAX_SLOT && 1 <= row.work && row.lateness == Some(lateness(completion, row.due))
}

/// Whether a row whose reads gave `pages` pages fills the fields that it should, and no others.
fn fills(row: &RowNumbers, pages: usize) -> bool
    ensures { (reads : List PageData) → length reads ≡ pages →
        result ≡ has_outcome (row_with row.now reads) row.now.row row.now.completion }
{
    match (row.row, row.completion) {
        (RowKind::Job, Some(completion)) => {
            agrees(row, completion) && row.given.is_none() && pages <= MAX_OPS as usize
        }
        (RowKind::Collect, Some(completion)) => {
            agrees(row, completion) && row.given.is_some() && pages == 0
        }
        (RowKind::Waived, Some(_)) => false,
        (RowKind::Job, None) => row.lateness.is_none() && row.given.is_none() && pages == 0,
        (RowKind::Collect, None) => row.lateness.is_none() && row.given.is_none() && pages == 0,
        (RowKind::Waived, None) => {
            row.lateness.is_none() && row.given.is_some() && pages == 0 && row.work == 0
        }
    }
}

/// Whether the numbers of die, task and job are within their limits.
fn has_place(row: &RowNumbers) -> bool
    ensures { result ≡ is_placed (die_row row.now []) }
{
    row.die < MAX_DIES && row.task.0 < MAX_TASKS && row.job.0 < MAX_JOBS
}

/// Whether the deadline is above the release, and within its limit.
fn has_times(row: &RowNumbers) -> bool
    ensures { result ≡ is_timed (row_with row.now []) }
{
    row.release < row.due && row.due <= MAX_SLOT
}

/// Whether the numbers of a row are within their limits, and it fills its fields, where its reads gave `pages` pages.
pub fn stands(row: &RowNumbers, pages: usize) -> bool
    ensures sound { (reads : List PageData) → length reads ≡ pages
        → result ≡ is_sound (die_row row.now reads) }
{
    has_place(row) && has_times(row) && fills(row, pages)
}

/// The numbers of the row that a record says, if it is of the right shape. What its reads gave is judged, and not kept.
pub fn read_numbers(fields: &ByteRecord) -> Option<RowNumbers>
    ensures { result ≡ option_map numbers_of (sound_row (fields_of fields.now)) }
{
    if fields.len() != 11 {
        return None;
    }
    let row = row_numbers(fields)?;
    let pages = count_pages(field_in(fields, 10))?;
    if stands(&row, pages) { Some(row) } else { None }
}
