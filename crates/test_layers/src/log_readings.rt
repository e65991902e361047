//! A log that is read from each place on.

use event_log::{Deed, EventLog, NoteParts, NotesFrom, WaivedOf};
use slot_types::{JobNo, Refusal, Waived};
use std::alloc::Global;
use std::test::Fail;

/// Who called, what was done, and what was waived.
type Noted = (u32, Deed, Waivers);

const JOB: JobNo = JobNo(0);

const COLLECTION: JobNo = JobNo(1);

const SUBMIT: Deed = Deed::Submit { number: JOB };

const COLLECT: Deed = Deed::Collect { number: COLLECTION };

const FIRST: Deed = Deed::Operation {
    number: JOB,
    place: 0,
};

const LAST: Deed = Deed::LastOperation {
    number: JOB,
    place: 1,
};

const ERASE: Deed = Deed::EraseSlot {
    number: COLLECTION,
    block: 5,
};

const ERASED: Deed = Deed::LastEraseSlot {
    number: COLLECTION,
    block: 5,
};

/// Collections that were waived, each by its number and the pages that it gave.
type Waivers = &'static [(u32, u32)];

const ONE: Waivers = &[(2, 4)];

const TWO: Waivers = &[(3, 1), (4, 2)];

/// What came, and how many times.
#[rattlefmt::skip]
const CAME: [(u32, Noted); 11] = [
    (1, (7, SUBMIT, &[])),
    (1, (7, COLLECT, &[])),
    (2, (7, Deed::Idle, &[])),
    (1, (8, Deed::Idle, &[])),
    (1, (8, Deed::Idle, ONE)),
    (1, (8, FIRST, &[])),
    (3, (8, ERASE, &[])),
    (1, (8, ERASE, TWO)),
    (1, (9, ERASED, &[])),
    (1, (9, LAST, ONE)),
    (2, (7, Deed::Idle, &[])),
];

/// The same one by one, each at its place.
#[rattlefmt::skip]
const NOTES: [Noted; 15] = [
    (7, SUBMIT, &[]),     // 0
    (7, COLLECT, &[]),
    (7, Deed::Idle, &[]),
    (7, Deed::Idle, &[]),
    (8, Deed::Idle, &[]),
    (8, Deed::Idle, ONE), // 5
    (8, FIRST, &[]),
    (8, ERASE, &[]),
    (8, ERASE, &[]),
    (8, ERASE, &[]),
    (8, ERASE, TWO),      // 10
    (9, ERASED, &[]),
    (9, LAST, ONE),
    (7, Deed::Idle, &[]),
    (7, Deed::Idle, &[]), // 14
];

fn waived((number, given): (u32, u32)) -> Waived {
    Waived {
        number: JobNo(number),
        given,
    }
}

/// Adds what came once.
fn push(alloc: Global, log: &mut EventLog, noted: &Noted) -> Result<(), Refusal> {
    let (caller, deed, waivers) = *noted;
    let mut list = Vec::new(alloc);
    for waiver in waivers {
        list.push(waived(*waiver))?;
    }
    log.reserve(1, list.len())?;
    if log.len() < 1_000 {
        log.push_reserved(caller, deed, &list);
    }
    Ok(())
}

/// The log of all that came.
fn log_of_all(alloc: Global) -> Result<EventLog, Refusal> {
    let mut log = EventLog::new(alloc);
    for (count, noted) in &CAME {
        for _ in 0..*count {
            push(alloc, &mut log, noted)?;
        }
    }
    Ok(log)
}

/// Whether these were waived, and none besides.
fn has_waived(got: &WaivedOf<'_>, want: Waivers) -> bool {
    for (place, waiver) in want.iter().enumerate() {
        if got.get(place) != Some(waived(*waiver)) {
            return false;
        }
    }
    got.len() == want.len() && got.get(want.len()).is_none()
}

fn is_noted(got: &NoteParts<'_>, want: &Noted) -> bool {
    let (caller, deed, waivers) = *want;
    got.caller == caller && got.deed == deed && has_waived(&got.waived, waivers)
}

/// Whether these notes are left, and none after them.
fn are_left(notes: &mut NotesFrom<'_>, want: &[Noted]) -> bool {
    for noted in want {
        match notes.pop() {
            Some(note) => {
                if !is_noted(&note, noted) {
                    return false;
                }
            }
            None => return false,
        }
    }
    notes.pop().is_none() && notes.pop().is_none()
}

/// The first place from which other notes are read than stand there.
fn first_wrong(log: &EventLog) -> Option<usize> {
    let notes = &NOTES[..];
    for from in 0..notes.len() {
        if !are_left(&mut log.notes_from(from as u32), &notes[from..]) {
            return Some(from);
        }
    }
    None
}

/// Whether nothing is read from this place on.
fn reads_none(log: &EventLog, from: u32) -> bool {
    log.notes_from(from).pop().is_none()
}

#[test]
fn a_log_is_read_from_each_place_on(rt: HostRuntime) -> Result<(), Fail> {
    let log = log_of_all(rt.alloc())?;
    assert_eq!(rt; (log.len(), first_wrong(&log)), (15, None));
    Ok(())
}

#[test]
fn past_its_end_nothing_is_read(rt: HostRuntime) -> Result<(), Fail> {
    let log = log_of_all(rt.alloc())?;
    let none = (
        reads_none(&log, 15),
        reads_none(&log, 16),
        reads_none(&log, u32::MAX),
    );
    assert_eq!(rt; none, (true, true, true));
    Ok(())
}

#[test]
fn an_empty_log_has_nothing_to_read(rt: HostRuntime) -> Result<(), Fail> {
    let mut log = log_of_all(rt.alloc())?;
    log.clear();
    assert_eq!(rt; (reads_none(&log, 0), reads_none(&log, 1)), (true, true));
    Ok(())
}
