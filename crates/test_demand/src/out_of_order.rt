//! Jobs that are released in another order than that in which they come.
//!
//! A task may ask for 4 operations in 10 slots. All its jobs come in slot 0. What is wanted is worked out by hand.

use demand_keeping::{Breach, keeps_demand_plan};
use demand_rules::{TaskTerms, Terms, TermsList};
use plan_rules::bound;
use slot_types::{Caps, DiePlan, Event, Op, OpList, Refusal, Shape, TaskNo};
use std::alloc::Global;
use std::test::Fail;

/// A job by its release, and how many pages it reads.
type Job = (u32, usize);

/// Jobs, and where the first period begins that gets too much.
type Case<'a> = (&'a [Job], Option<u32>);

fn plan(alloc: Global) -> Result<DiePlan, Refusal> {
    Ok(DiePlan {
        shape: Shape {
            blocks: 16,
            pages: 4,
            erase_slots: 2,
        },
        logical: 20,
        alpha: 2,
        caps: Caps::from_vec(Vec::from_slice(alloc, &[6])?),
        times: None,
    })
}

fn terms(alloc: Global) -> Result<Terms, Refusal> {
    let task = TaskTerms {
        period: 10,
        deadline: 10,
        held: 100,
        work: 4,
        writes: 1,
        collect_period: 40,
        collect_deadline: 40,
    };
    Ok(Terms {
        tasks: TermsList::from_vec(Vec::from_slice(alloc, &[task])?),
    })
}

fn read(alloc: Global, job: Job) -> Result<Event, Refusal> {
    let ops = vec![in alloc; Op::Read(0); job.1]?;
    Ok(Event::Submit {
        task: TaskNo(0),
        release: job.0,
        due: job.0.saturating_add(10),
        ops: OpList::from_vec(ops),
    })
}

/// The collection of slot 0, the jobs, and the slot.
fn events(alloc: Global, jobs: &[Job]) -> Result<Vec<Event>, Refusal> {
    let mut events = Vec::new(alloc);
    events.push(Event::Collect {
        task: TaskNo(0),
        release: 0,
        due: 40,
    })?;
    for job in jobs {
        events.push(read(alloc, *job)?)?;
    }
    events.push(Event::Slot)?;
    Ok(events)
}

fn is_so(alloc: Global, case: &Case<'_>) -> Result<bool, Refusal> {
    let plan = plan(alloc)?;
    bound(&plan)?;
    let terms = terms(alloc)?;
    let events = events(alloc, case.0)?;
    let wanted = match case.1 {
        Some(start) => Err(Breach::Operations { task: 0, start }),
        None => Ok(()),
    };
    Ok(keeps_demand_plan(alloc, &plan, &terms, events.as_slice())? == wanted)
}

/// The place, from 0, of the first case that is judged otherwise.
fn first_wrong(alloc: Global, cases: &[Case<'_>]) -> Result<Option<usize>, Refusal> {
    for (place, case) in cases.iter().enumerate() {
        if !is_so(alloc, case)? {
            return Ok(Some(place));
        }
    }
    Ok(None)
}

#[test]
fn the_first_period_is_named_that_gets_too_much(rt: HostRuntime) -> Result<(), Fail> {
    let cases: &[Case<'_>] = &[
        // with the fourth job 5 operations in slots 11 to 20; the period ends with the release of the first
        (&[(20, 2), (5, 1), (14, 2), (12, 1)], Some(11)),
        // then also 5 in slots 3 to 12, which begin before it: these get too much later
        (&[(20, 2), (5, 1), (14, 2), (12, 1), (3, 3)], Some(11)),
        // with the third job 5 operations in slots 2 to 11, and in slots 11 to 20
        (&[(20, 2), (2, 2), (11, 3)], Some(2)),
        // two releases in one slot
        (&[(14, 2), (5, 2), (14, 1)], Some(5)),
        // no period begins before slot 0
        (&[(5, 3), (4, 2)], Some(0)),
        // releases in order: 4 operations in slots 1 to 10, and 5 in slots 2 to 11
        (&[(0, 2), (9, 2), (10, 2), (11, 1)], Some(2)),
    ];
    assert_eq!(rt; first_wrong(rt.alloc(), cases)?, None);
    Ok(())
}

/// 4 operations in slots 5 and 15 each, which no period has both of; and 2 in each fifth slot.
#[test]
fn full_periods_are_kept(rt: HostRuntime) -> Result<(), Fail> {
    let cases: &[Case<'_>] = &[
        (&[(15, 4), (5, 4)], None),
        (&[(20, 2), (10, 2), (15, 2), (5, 2), (0, 2)], None),
    ];
    assert_eq!(rt; first_wrong(rt.alloc(), cases)?, None);
    Ok(())
}
