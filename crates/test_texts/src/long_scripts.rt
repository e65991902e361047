//! Long scripts on four dies whose reader fails among their rows, or is interrupted for ever: what is read, and with how many
//! calls, is the same by any workers.

use crate::bounds::{Counting, Ended, SCRIPT_HEADER};
use crate::faults::failing_at;
use crate::runs::run_on;
use slot_types::{Cause, Refusal};
use std::alloc::Global;
use std::io::ErrorKind;
use std::test::Fail;

const FOUR_DIES: &str = "version = 1
dies = 4
blocks = 8
pages = 4
erase_slots = 3
logical = 12
alpha = 2

[[task]]
die = 0
cap = 4

[[task]]
die = 1
cap = 4

[[task]]
die = 2
cap = 4

[[task]]
die = 3
cap = 4
";

/// How many rows stand before what is odd, and after it: more than eight batches hold.
const ROWS: u32 = 70_000;

/// The same bytes, `times` times.
fn repeated(alloc: Global, bytes: &[u8], times: u32) -> Result<Vec<u8>, Fail> {
    let mut text = Vec::new(alloc);
    for _ in 0..times {
        text.extend_from_slice(bytes)?;
    }
    Ok(text)
}

/// A header, rows of die 1, these bytes, and further rows.
fn script_with(alloc: Global, odd: &[u8]) -> Result<Vec<u8>, Fail> {
    let rows = repeated(alloc, b"0,1,0,job,0,2,R2\n".as_slice(), ROWS)?;
    let mut text = Vec::from_slice(alloc, SCRIPT_HEADER.as_bytes())?;
    text.extend_from_slice(rows.as_slice())?;
    text.extend_from_slice(odd)?;
    text.extend_from_slice(rows.as_slice())?;
    Ok(text)
}

/// A script of 2,380,033 bytes is read in some 340,005 calls of seven bytes. Rows that are at fault before the call that
/// fails come first, and else the failure.
#[test]
fn a_reader_may_fail_among_many_rows(rt: HostRuntime) -> Result<(), Fail> {
    let alloc = rt.alloc();
    let fine = script_with(alloc, b"".as_slice())?;
    let odd = script_with(alloc, b"0,9,0,job,0,2,R3\n".as_slice())?;
    for call in [1, 5, 100_000, 200_000, 340_000] {
        for workers in [1, 4, 8] {
            let mut text = Vec::new(alloc);
            let ended = run_on(
                &rt,
                alloc,
                FOUR_DIES,
                failing_at(fine.as_slice(), call),
                &mut text,
                workers,
            );
            assert!(rt;
                ended == Err(Refusal::ReadFault) && text.is_empty(),
                "{call} {workers}"
            );
            let wanted = if call <= 100_000 {
                Refusal::ReadFault
            } else {
                Refusal::ScriptRow {
                    line: 70_002,
                    cause: Cause::Die,
                }
            };
            let ended = run_on(
                &rt,
                alloc,
                FOUR_DIES,
                failing_at(odd.as_slice(), call),
                &mut text,
                workers,
            );
            assert!(rt; ended == Err(wanted) && text.is_empty(), "{call} {workers}");
        }
    }
    Ok(())
}

/// A reader that gives 2,097,000 bytes, one a call, and is interrupted from then on, is called 67,108,865 times.
#[test]
fn a_script_has_a_bound_on_calls_by_any_workers(rt: HostRuntime) {
    let alloc = rt.alloc();
    let bytes = 2_097_000;
    for workers in [1, 7, 8] {
        let mut reader = Counting::new(SCRIPT_HEADER, bytes, 1, Some(ErrorKind::Interrupted));
        let mut report = Vec::new(alloc);
        let ended = run_on(&rt, alloc, FOUR_DIES, &mut reader, &mut report, workers);
        let want = Ended {
            refusal: Some(Refusal::ReadFault),
            given: bytes,
            calls: 67_108_865,
        };
        assert!(rt;
            reader.into_ended(bytes, ended.err()) == want && report.is_empty(),
            "{workers}"
        );
    }
}
