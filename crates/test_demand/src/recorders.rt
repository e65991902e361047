//! A recorder: eight sensors, a crash that is rare and urgent, and a read-out; and what the tests say of it.

use demand_rules::{
    DemandFault, DemandLoad, Lack, LimitFault, SupplyFault, TaskTerms, Terms, TermsFault,
    TermsList, TermsNumber, demand_test, has_terms, limits_test, terms_test,
};
use plan_rules::bound;
use slot_types::{Caps, DiePlan, Refusal, Shape};
use std::alloc::Global;
use std::test::Fail;

/// A crash by its operations, its deadline and the cap of its task.
type Crash = (u32, u32, u32);

fn recorder(alloc: Global, cap: u32) -> Result<DiePlan, Refusal> {
    Ok(DiePlan {
        shape: Shape {
            blocks: 1_024,
            pages: 64,
            erase_slots: 11,
        },
        logical: 50_000,
        alpha: 12,
        caps: Caps::from_vec(Vec::from_slice(alloc, &[26, cap, 24])?),
        times: None,
    })
}

fn task(times: (u32, u32), work: (u32, u32), collect: u32) -> TaskTerms {
    TaskTerms {
        period: times.0,
        deadline: times.1,
        held: times.1,
        work: work.0,
        writes: work.1,
        collect_period: collect,
        collect_deadline: collect,
    }
}

/// A write in 160 slots, the crash in 240,000, and 32 reads in 400.
fn terms(alloc: Global, work: u32, deadline: u32) -> Result<Terms, Refusal> {
    with_crash(alloc, task((240_000, deadline), (work, work), 2_812))
}

/// The same with a crash of its own.
fn with_crash(alloc: Global, crash: TaskTerms) -> Result<Terms, Refusal> {
    let sensors = task((160, 160), (1, 1), 1_920);
    let read_out = task((400, 400), (32, 0), 240_000);
    Ok(Terms {
        tasks: TermsList::from_vec(Vec::from_slice(alloc, &[sensors, crash, read_out])?),
    })
}

/// A crash, and what the tests say of a plan with it.
type Case = (Crash, Result<DemandLoad, TermsFault>);

fn is_so(alloc: Global, case: &Case) -> Result<bool, Refusal> {
    let crash = case.0;
    let plan = recorder(alloc, crash.2)?;
    bound(&plan)?;
    Ok(terms_test(&plan, &terms(alloc, crash.0, crash.1)?) == case.1)
}

/// The place, from 0, of the first recorder that is judged otherwise.
fn first_wrong(alloc: Global, cases: &[Case]) -> Result<Option<usize>, Refusal> {
    for (place, case) in cases.iter().enumerate() {
        if !is_so(alloc, case)? {
            return Ok(Some(place));
        }
    }
    Ok(None)
}

/// The plan passes: `load` is asked for in the long run, and this is the tightest interval.
const fn passes(load: u32, tightest: u32, slack: u32) -> Result<DemandLoad, TermsFault> {
    Ok(DemandLoad {
        load,
        tightest,
        slack,
    })
}

#[test]
fn a_crash_is_admitted_down_to_its_last_slot(rt: HostRuntime) -> Result<(), Fail> {
    let short = Err(TermsFault::Supply(SupplyFault {
        task: 1,
        lack: Lack::Cap { least: 1_083 },
    }));
    let overfull = Err(TermsFault::Demand(DemandFault::Overfull {
        slots: 1_093,
        excess: 1,
    }));
    let cases: &[Case] = &[
        ((1_024, 8_000, 1_083), passes(191_786, 160, 159)),
        // a page less than the cap that it needs
        ((1_024, 8_000, 1_082), short),
        // due in 1,094 slots, and in one slot less
        ((1_024, 1_094, 1_083), passes(191_786, 1_094, 0)),
        ((1_024, 1_093, 1_083), overfull),
    ];
    assert_eq!(rt; first_wrong(rt.alloc(), cases)?, None);
    Ok(())
}

/// A crash once in an hour of 250 us slots, which is longer than a life.
#[test]
fn a_period_may_be_longer_than_a_life(rt: HostRuntime) -> Result<(), Fail> {
    let plan = recorder(rt.alloc(), 1_049)?;
    let crash = task((14_400_000, 8_000), (1_024, 1_024), 168_750);
    let terms = with_crash(rt.alloc(), crash)?;
    bound(&plan)?;
    assert_eq!(rt; terms_test(&plan, &terms), passes(147_376, 160, 159));
    Ok(())
}

/// A crash of no operations is none, nor is one that is due at once, or has more operations than a life has slots.
#[test]
fn terms_have_limits(rt: HostRuntime) -> Result<(), Fail> {
    let plan = recorder(rt.alloc(), 1_083)?;
    let out = |number| Err(LimitFault::Number { task: 1, number });
    assert_eq!(rt;
        limits_test(&plan, &terms(rt.alloc(), 0, 8_000)?),
        out(TermsNumber::Work)
    );
    assert_eq!(rt;
        limits_test(&plan, &terms(rt.alloc(), 1, 0)?),
        out(TermsNumber::Deadline)
    );
    assert_eq!(rt;
        limits_test(&plan, &terms(rt.alloc(), 1_048_577, 8_000)?),
        out(TermsNumber::Work)
    );
    assert!(rt; has_terms(&plan, &terms(rt.alloc(), 1_048_576, 1_048_576)?));
    Ok(())
}

/// A task that reads as many pages in each slot as a life has, due at its end: no interval of a life is overfull.
#[test]
fn a_load_above_one_is_refused(rt: HostRuntime) -> Result<(), Fail> {
    let plan = recorder(rt.alloc(), 1_083)?;
    bound(&plan)?;
    let mut crash = task((1, 1_048_576), (1_000_000, 0), 1_048_576);
    crash.collect_deadline = 200;
    let terms = with_crash(rt.alloc(), crash)?;
    // of a million slots, by task: 6,250 and 59,895; a million times a million and 109; 80,000 and 479
    let load = DemandFault::Load(1_000_000_146_733);
    assert_eq!(rt; demand_test(&plan, &terms), Err(load));
    Ok(())
}
