//! What the fields of a report's record have to be, by the records before it.

use csv::ByteRecord;
use report_texts::Finish;
use slot_types::{JobNo, MAX_DIES, MAX_JOBS, MAX_OPS, MAX_SLOT, MAX_TASKS};
use std::fmt::{Display, Formatter};
use std::{fmt, str};
use text_base::{count_pages, field_in, is_named, number};

/// What a field has to be.
#[derive(Clone, Copy, PartialEq, Eq, Debug, Drop)]
pub(crate) enum Need {
    /// The kind of a row, or that of a certificate.
    Kind,
    /// That of a certificate, where no row may stand any more.
    Certificate,
    /// A whole number from one to another.
    Whole { from: u32, to: u32 },
    /// A whole number, or nothing.
    WholeOrEmpty,
    /// This number, and why.
    Number { number: i64, why: &'static str },
    /// Above the release.
    Above { release: u32 },
    /// Not before this die.
    DieFrom { die: u32 },
    /// Nothing, and why.
    Empty { why: &'static str },
    /// Pages.
    Pages,
    /// Numbers.
    Numbers,
}

impl Display for Need {
    fn fmt<W: fmt::Write>(&self, f: &mut Formatter<W>) -> fmt::Result {
        match self {
            Need::Kind => f.write_str("has to be job, collect, waived or cert"),
            Need::Certificate => f.write_str(
                "has to be cert: after the first of these no row may stand",
            ),
            Need::Whole { from, to } => write!(f, "has to be a whole number from {from} to {to}"),
            Need::WholeOrEmpty => {
                write!(f, "has to be a whole number from 0 to {MAX_SLOT}, or empty")
            }
            Need::Number { number, why } => write!(f, "has to be {number}: {why}"),
            Need::Above { release } => {
                write!(f, "has to be above `release`, which is {release}")
            }
            Need::DieFrom { die } => {
                write!(f, "has to be at least {die}: the rows stand by die")
            }
            Need::Empty { why } => write!(f, "has to be empty: {why}"),
            Need::Pages => f.write_str(
                "has to be the 0 to 64 pages that its reads gave, of 32 hexadecimal digits each, with a space between two",
            ),
            Need::Numbers => { f.write_str("has to be numbers of jobs, with a space between two") }
        }
    }
}

/// What stands in a report before a record.
#[derive(Clone, Copy, Drop)]
pub(crate) struct Before {
    /// The last die that has rows, and how many it has.
    die: u32,
    rows: u32,
    /// By die how its worst done row ended, if one is done and it has no certificate yet.
    worst: [Option<Finish>; MAX_DIES as usize],
    /// Whether a certificate stands there.
    has_certs: bool,
}

/// The number in a field.
fn number_in(fields: &ByteRecord, place: usize) -> Option<u32> {
    number(field_in(fields, place))
}

/// How late a row ended.
fn lateness_in(finish: &Finish) -> i64 {
    i64::from(finish.completion) - i64::from(finish.due)
}

/// The worse of two ends, the first where neither is.
fn worse(best: Option<Finish>, next: Finish) -> Finish {
    match best {
        Some(best)
            if lateness_in(&next) < lateness_in(&best)
                || lateness_in(&next) == lateness_in(&best) && next.completion >= best.completion =>
            { best }
        _ => next,
    }
}

impl Before {
    /// The header alone.
    pub(crate) const HEADER: Before = Before {
        die: 0,
        rows: 0,
        worst: [None; MAX_DIES as usize],
        has_certs: false,
    };

    /// Goes on by a record that doesn't break the report.
    pub(crate) fn note(&mut self, fields: &ByteRecord) {
        let (Some(die), Some(job)) = (number_in(fields, 1), number_in(fields, 2)) else {
            return;
        };
        let place = die as usize;
        if place >= self.worst.len() {
            return;
        }
        if is_named(fields, 0, "cert") {
            self.has_certs = true;
            self.worst[place] = None;
            return;
        }
        self.rows = if die == self.die {
            self.rows.saturating_add(1)
        } else {
            1
        };
        self.die = die;
        if let (Some(due), Some(completion)) = (number_in(fields, 5), number_in(fields, 7)) {
            let job = JobNo(job);
            let next = Finish {
                job,
                due,
                completion,
            };
            self.worst[place] = Some(worse(self.worst[place], next));
        }
    }

    /// The next die that has a done row and no certificate, and its worst row.
    pub(crate) fn next_cert(&self) -> Option<(u32, Finish)> {
        let mut die: u32 = 0;
        for worst in &self.worst {
            if let Some(worst) = worst {
                return Some((die, *worst));
            }
            die = die.saturating_add(1);
        }
        None
    }

    /// Whether a record may not stand there, whatever it has: no certificate is missing, and it is one, or comes after
    /// one.
    pub(crate) fn is_over(&self, fields: &ByteRecord) -> bool {
        (self.has_certs || is_named(fields, 0, "cert")) && self.next_cert().is_none()
    }
}

/// Whether a field is a whole number from one to another.
fn is_whole(fields: &ByteRecord, place: usize, from: u32, to: u32) -> bool {
    match number_in(fields, place) {
        Some(number) => from <= number && number <= to,
        None => false,
    }
}

/// A field that has to be a whole number from one to another, if it isn't.
fn whole(fields: &ByteRecord, place: usize, from: u32, to: u32) -> Option<(usize, Need)> {
    if is_whole(fields, place, from, to) {
        None
    } else {
        Some((place, Need::Whole { from, to }))
    }
}

/// A field that has to be empty, if it isn't.
fn empty(fields: &ByteRecord, place: usize, why: &'static str) -> Option<(usize, Need)> {
    if field_in(fields, place).is_empty() {
        None
    } else {
        Some((place, Need::Empty { why }))
    }
}

/// A field that has to be this number, if it isn't.
fn exactly(
    fields: &ByteRecord,
    place: usize,
    number: i64,
    why: &'static str,
) -> Option<(usize, Need)> {
    if signed_in(field_in(fields, place)) == Some(number) {
        None
    } else {
        Some((place, Need::Number { number, why }))
    }
}

/// A number, with `-` before it where it is below 0.
pub(crate) fn signed_in(field: &[u8]) -> Option<i64> {
    match field.split_first() {
        Some((b'-', digits)) => match number(digits) {
            Some(size) if size > 0 => Some(0 - i64::from(size)),
            _ => None,
        },
        _ => Some(i64::from(number(field)?)),
    }
}

/// A field that has to be numbers, with a space between two, if it isn't.
fn numbers(fields: &ByteRecord, place: usize) -> Option<(usize, Need)> {
    let field = field_in(fields, place);
    let are = str::from_utf8(field).is_ok_and(|text| {
        text.is_empty()
            || text
                .split(' ')
                .all(|word| number(word.as_bytes()).is_some())
    });
    if are {
        None
    } else {
        Some((place, Need::Numbers))
    }
}

/// The first of these that there is.
fn first_of(needs: &[Option<(usize, Need)>]) -> Option<(usize, Need)> {
    for need in needs {
        if need.is_some() {
            return *need;
        }
    }
    None
}

/// The first number of a row that is none, or is out of its limits.
fn number_need(fields: &ByteRecord) -> Option<(usize, Need)> {
    first_of(&[
        whole(fields, 1, 0, MAX_DIES - 1),
        whole(fields, 2, 0, MAX_JOBS - 1),
        whole(fields, 3, 0, MAX_TASKS - 1),
        whole(fields, 4, 0, MAX_SLOT - 1),
        whole(fields, 5, 1, MAX_SLOT),
    ])
}

/// What of a row's times is wrong.
fn time_need(fields: &ByteRecord) -> Option<(usize, Need)> {
    let (Some(release), Some(due)) = (number_in(fields, 4), number_in(fields, 5)) else {
        return None;
    };
    if due <= release {
        return Some((5, Need::Above { release }));
    }
    None
}

/// What of a row that waits is wrong.
fn waiting_need(fields: &ByteRecord) -> Option<(usize, Need)> {
    let why = "the row has no completion";
    first_of(&[
        whole(fields, 6, 0, u32::MAX),
        empty(fields, 8, why),
        empty(fields, 9, why),
        empty(fields, 10, why),
    ])
}

/// What of a waived collection is wrong.
fn waived_need(fields: &ByteRecord) -> Option<(usize, Need)> {
    let why = "the collection was waived";
    first_of(&[
        exactly(fields, 6, 0, why),
        empty(fields, 7, why),
        empty(fields, 8, why),
        whole(fields, 9, 0, u32::MAX),
        empty(fields, 10, why),
    ])
}

/// A field that has to be pages, if it isn't.
fn pages(fields: &ByteRecord, place: usize) -> Option<(usize, Need)> {
    match count_pages(field_in(fields, place)) {
        Some(count) if count <= MAX_OPS as usize => None,
        _ => Some((place, Need::Pages)),
    }
}

/// What of a done row is wrong.
fn done_need(fields: &ByteRecord, is_job: bool) -> Option<(usize, Need)> {
    let (Some(due), Some(completion)) = (number_in(fields, 5), number_in(fields, 7)) else {
        return Some((7, Need::WholeOrEmpty));
    };
    if completion > MAX_SLOT {
        return Some((7, Need::WholeOrEmpty));
    }
    let late = i64::from(completion) - i64::from(due);
    let (given, items) = if is_job {
        (empty(fields, 9, "the row is a job's"), pages(fields, 10))
    } else {
        let no_reads = empty(fields, 10, "a collection has no reads");
        (whole(fields, 9, 0, u32::MAX), no_reads)
    };
    first_of(&[
        whole(fields, 6, 1, u32::MAX),
        exactly(fields, 8, late, "it is `completion` less `due`"),
        given,
        items,
    ])
}

/// What of a row is wrong by itself.
fn row_need(fields: &ByteRecord) -> Option<(usize, Need)> {
    let (is_job, is_collection) = (is_named(fields, 0, "job"), is_named(fields, 0, "collect"));
    let is_waived = is_named(fields, 0, "waived");
    if !is_job && !is_collection && !is_waived {
        return Some((0, Need::Kind));
    }
    let need = first_of(&[number_need(fields), time_need(fields)]);
    if need.is_some() {
        return need;
    }
    if is_waived {
        waived_need(fields)
    } else if field_in(fields, 7).is_empty() {
        waiting_need(fields)
    } else {
        done_need(fields, is_job)
    }
}

/// What of a row is wrong after the rows before it.
fn order_need(before: &Before, fields: &ByteRecord) -> Option<(usize, Need)> {
    let (die, rows) = (before.die, before.rows);
    if !is_whole(fields, 1, die, u32::MAX) {
        return Some((1, Need::DieFrom { die }));
    }
    let next = if is_whole(fields, 1, die, die) {
        rows
    } else {
        0
    };
    let why = "the rows of a die are numbered from 0, one after the other";
    exactly(fields, 2, i64::from(next), why)
}

/// What of the certificate of this die's worst row is wrong.
fn cert_need(fields: &ByteRecord, die: u32, worst: &Finish) -> Option<(usize, Need)> {
    let of_worst = "a certificate is of its die's worst row";
    let of_cert = "the row is a certificate's";
    let of_die = "that is the next die with a done row";
    first_of(&[
        exactly(fields, 1, i64::from(die), of_die),
        exactly(fields, 2, i64::from(worst.job.0), of_worst),
        empty(fields, 3, of_cert),
        whole(fields, 4, 0, u32::MAX),
        exactly(fields, 5, i64::from(worst.due), of_worst),
        empty(fields, 6, of_cert),
        exactly(fields, 7, i64::from(worst.completion), of_worst),
        exactly(fields, 8, lateness_in(worst), of_worst),
        empty(fields, 9, of_cert),
        numbers(fields, 10),
    ])
}

/// The first field of a record of eleven that breaks a report, by its place, and what it has to be; none where the
/// record may not stand there at all, whatever it has, or where it breaks nothing.
pub(crate) fn need_of(before: &Before, fields: &ByteRecord) -> Option<(usize, Need)> {
    if !is_named(fields, 0, "cert") {
        if before.has_certs {
            before.next_cert()?;
            return Some((0, Need::Certificate));
        }
        return first_of(&[row_need(fields), order_need(before, fields)]);
    }
    let (die, worst) = before.next_cert()?;
    cert_need(fields, die, &worst)
}
