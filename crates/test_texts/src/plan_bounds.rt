//! The byte at which the reader of a plan is given up, and its own errors.

use crate::bounds::{Counting, Ended, KINDS};
use example_texts::PLAN;
use plan_texts::read_plan_from;
use slot_types::{Cause, Refusal};
use std::alloc::Global;
use std::io::ErrorKind;
use std::process::Abort;
use text_base::FlaggedReader;

/// The most bytes of a plan.
const MAX_BYTES: usize = 1_048_576;

/// The most calls of a reader for the same bytes.
const MAX_CALLS: usize = 1_048_576;

const TOO_LONG: Refusal = Refusal::PlanText {
    cause: Cause::TooLong,
};

/// Reads a plan with line feeds after it, `bytes` bytes in all and at most `a_call` a call, after which the reader
/// fails or ends.
fn read(alloc: Global, bytes: usize, a_call: usize, fault: Option<ErrorKind>) -> Ended {
    let mut reader = Counting::new(PLAN, bytes, a_call, fault);
    let refusal = read_plan_from(alloc, &mut FlaggedReader::new(&mut reader)).err();
    reader.into_ended(bytes, refusal)
}

fn check(rt: &impl Abort, alloc: Global, case: (usize, usize, Option<ErrorKind>), want: Ended) {
    let (bytes, a_call, fault) = case;
    assert_eq!(rt; read(alloc, bytes, a_call, fault), want, "{case:?}");
}

/// A plan of the most bytes is read to its end, which its reader shows in one call more.
#[test]
fn a_plan_of_the_most_bytes_is_read(rt: HostRuntime) {
    let want = Ended {
        refusal: None,
        given: MAX_BYTES,
        calls: MAX_BYTES + 1,
    };
    check(&rt, rt.alloc(), (MAX_BYTES, 1, None), want);
}

/// The byte after the most is the last that is asked for, and no more calls are made: the plan is too long, whatever
/// the reader would say next.
#[test]
fn a_plan_is_given_up_at_one_byte_more(rt: HostRuntime) {
    let want = Ended {
        refusal: Some(TOO_LONG),
        given: MAX_BYTES + 1,
        calls: MAX_BYTES + 1,
    };
    check(&rt, rt.alloc(), (MAX_BYTES + 1, 1, None), want);
    check(&rt, rt.alloc(), (usize::MAX, 1, None), want);
    let fault = Some(ErrorKind::BrokenPipe);
    check(&rt, rt.alloc(), (MAX_BYTES + 1, 1, fault), want);
    for a_call in [1000, usize::MAX] {
        let ended = read(rt.alloc(), usize::MAX, a_call, None);
        assert_eq!(rt;
            (ended.refusal, ended.given),
            (Some(TOO_LONG), MAX_BYTES + 1)
        );
    }
}

/// A reader that gives nothing is asked once: the plan ended there.
#[test]
fn a_plan_of_no_bytes_is_asked_for_once(rt: HostRuntime) {
    let want = Ended {
        refusal: Some(Refusal::PlanText {
            cause: Cause::MissingKey,
        }),
        given: 0,
        calls: 1,
    };
    check(&rt, rt.alloc(), (0, 1, None), want);
}

/// A reader that is interrupted for ever is asked for the same bytes as often as there are calls for them, and no more.
#[test]
fn a_plans_reader_that_is_interrupted_for_ever_is_given_up(rt: HostRuntime) {
    let want = Ended {
        refusal: Some(Refusal::ReadFault),
        given: 8192,
        calls: 8192 + MAX_CALLS,
    };
    let interrupted = Some(ErrorKind::Interrupted);
    check(&rt, rt.alloc(), (8192, 1, interrupted), want);
}

/// A reader that says that memory ran out failed like any other.
#[test]
fn an_error_of_a_plans_reader_is_a_read_fault(rt: HostRuntime) {
    for kind in KINDS {
        for bytes in [0, 1, 40, 8192, 100_000, MAX_BYTES] {
            let want = Some(Refusal::ReadFault);
            let ended = read(rt.alloc(), bytes, usize::MAX, Some(kind));
            assert_eq!(rt; (ended.refusal, ended.given), (want, bytes), "{kind:?}");
        }
        let want = Ended {
            refusal: Some(Refusal::ReadFault),
            given: 8192,
            calls: 8193,
        };
        check(&rt, rt.alloc(), (8192, 1, Some(kind)), want);
    }
}
