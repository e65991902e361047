//! Feeds as lists: any event goes in, and comes out again.

use crate::made::{ONES, TWOS};
use die_service::{Feed, FeedItem};
use slot_core::EventHead;
use slot_types::{Event, JobHead, LentOps, Op, OpList, Refusal, TaskNo};
use std::alloc::Global;
use std::test::Fail;

// Pages from the least to the greatest that 32 bits tell.
const OPS: [Op; 5] = [
    Op::Write(4294967295, TWOS),
    Op::Read(4294967295),
    Op::Trim(4294967295),
    Op::Write(0, ONES),
    Op::Read(1073741824),
];

const JOB: JobHead = JobHead {
    collects: false,
    task: TaskNo(4294967295),
    release: 9,
    due: 4,
};

const COLLECTION: JobHead = JobHead {
    collects: true,
    task: TaskNo(3),
    release: 7,
    due: 8,
};

// A job of these operations.
fn job_of(alloc: Global) -> Result<Event, Refusal> {
    let ops = OpList::from_vec(Vec::from_slice(alloc, &OPS)?);
    Ok(JOB.with_ops(ops))
}

// Puts in a job of these operations, a slot, a collection and a job without any.
fn push_mixed(feed: &mut Feed, alloc: Global) -> Result<(), Refusal> {
    feed.push(5, job_of(alloc)?)?;
    feed.push(2, Event::Slot)?;
    feed.push_lent(8, COLLECTION, &LentOps::list(&OPS))?;
    feed.push(8, JOB.with_ops(OpList::new(alloc)))
}

// Whether an event has these operations, and no more.
fn has_ops(event: &FeedItem, ops: &[Op]) -> bool {
    for place in 0..ops.len() {
        if event.op(place) != Some(ops[place]) {
            return false;
        }
    }
    event.len() == ops.len() && event.op(ops.len()).is_none()
}

// Whether the event of this place comes before this slot, with this head and these operations.
fn is_at(feed: &Feed, place: usize, at: u32, head: EventHead, ops: &[Op]) -> bool {
    match feed.get(place) {
        Some(event) => event.at() == at && event.head() == head && has_ops(&event, ops),
        None => false,
    }
}

#[test]
fn a_feed_gives_back_what_it_was_given(rt: HostRuntime) -> Result<(), Fail> {
    let mut feed = Feed::new(rt.alloc());
    push_mixed(&mut feed, rt.alloc())?;
    assert_eq!(rt; feed.len(), 4);
    assert!(rt; is_at(&feed, 0, 5, EventHead::Arrive(JOB), &OPS));
    assert!(rt; is_at(&feed, 1, 2, EventHead::Slot, &[]));
    assert!(rt; is_at(&feed, 2, 8, EventHead::Arrive(COLLECTION), &[]));
    assert!(rt; is_at(&feed, 3, 8, EventHead::Arrive(JOB), &[]));
    assert!(rt; feed.get(4).is_none());
    Ok(())
}

// Puts in collections that come before these slots, and a slot after them where one is asked for.
fn push_coming(feed: &mut Feed, at: &[u32], slot: bool) -> Result<(), Refusal> {
    for slot in at {
        feed.push_lent(*slot, COLLECTION, &LentOps::none())?;
    }
    if slot {
        feed.push(4294967295, Event::Slot)?;
    }
    Ok(())
}

// Whether the feed of these is one for a run.
fn is_for_run(alloc: Global, at: &[u32], slot: bool) -> Result<bool, Refusal> {
    let mut feed = Feed::new(alloc);
    push_coming(&mut feed, at, slot)?;
    Ok(feed.is_in_order())
}

#[test]
fn a_feed_for_a_run_never_falls_and_has_no_slot(rt: HostRuntime) -> Result<(), Fail> {
    const CASES: &[(&[u32], bool, bool)] = &[
        (&[], false, true),
        (&[7], false, true),
        (&[0, 3, 3, 9], false, true),
        (&[0, 3, 2, 9], false, false),
        (&[1, 0], false, false),
        (&[0, 3], true, false),
        (&[], true, false),
    ];
    for (at, slot, want) in CASES {
        assert!(rt;
            is_for_run(rt.alloc(), *at, *slot)? == *want,
            "{at:?}, slot {slot}"
        );
    }
    Ok(())
}
