//! How far the cap of a task may grow, the rest being as it is: what a plan's bound leaves. It is found by halves: a plan
//! meets its bound with a smaller cap where it does with a greater one.

ghost use Rattle.std.specs.Prelude.{◌≡◌, ◌↔◌, ◌≤◌, ◌<◌, IsTrue, slice_index_or, slice_set};
ghost use Rattle.plan_rules.specs.Bound.{MeetsBound};
ghost use Rattle.flashplan_terms_margins.specs.Changes.{FindsCap, IsAlikeButCap, MeetsWithCap, with_cap};

use plan_rules::bound;
use slot_types::{Caps, DiePlan};
use terms_texts::DieTerms;

/// A plan that was tried, and whether it meets its bound with the cap that it was tried with.
#[derive(Drop)]
struct Attempt {
    /// It differs from the plan before in the cap of that task alone, if at all.
    plan: DiePlan,
    meets: bool,
}

/// A plan whose cap was sought, and the greatest one; none where not even a cap of 1 would do.
#[derive(Drop)]
struct Sought {
    /// It differs from the plan before in the cap of that task alone, if at all.
    plan: DiePlan,
    found: Option<u32>,
}

/// A die, and the greatest cap of a task with which it meets its bound; none where not even a cap of 1 would do.
#[derive(Drop)]
pub(crate) struct CapMargin {
    /// The die as it was.
    pub(crate) made: DieTerms,
    pub(crate) found: Option<u32>,
}

/// Caps with that of one task changed, if there is one.
fn with_one(caps: Caps, task: usize, cap: u32) -> Caps
    ensures { result ≡ slice_set caps task cap }
{
    let mut all = caps.into_vec();
    if task < all.len() {
        all[task] = cap;
    }
    Caps::from_vec(all)
}

/// A plan with this cap of a task, if there is one.
pub fn with_cap(plan: DiePlan, task: usize, cap: u32) -> DiePlan
    ensures { result ≡ with_cap plan task cap }
{
    DiePlan {
        caps: with_one(plan.caps, task, cap),
        ..plan
    }
}

/// The cap of a task; 0 where there is none.
pub fn own_cap(plan: &DiePlan, task: usize) -> u32
    ensures { result ≡ slice_index_or plan.now.caps task 0 }
{
    let caps = plan.caps.as_slice();
    if task < caps.len() { caps[task] } else { 0 }
}

/// A plan with this cap of a task, put to the test of its bound.
fn tried(plan: DiePlan, task: usize, cap: u32) -> Attempt
    ensures alike { IsAlikeButCap task result.plan plan }
    ensures meets { IsTrue result.meets ↔ MeetsWithCap plan task cap }
{
    let plan = with_cap(plan, task, cap);
    let meets = bound(&plan).is_ok();
    Attempt { plan, meets }
}

/// The greatest cap of a task with which a plan meets its bound.
fn greatest(plan: DiePlan, task: usize) -> Sought
    ensures alike { IsAlikeButCap task result.plan plan }
    ensures found { FindsCap plan task result.found }
{
    let Attempt { plan, meets } = tried(plan, task, 1);
    if !meets {
        return Sought { plan, found: None };
    }
    let mut trial = plan;
    let mut with: u32 = 1;
    let mut beyond: u32 = u32::MAX;
    while with + 1 < beyond {
        let middle = with + (beyond - with) / 2;
        let Attempt { plan, meets } = tried(trial, task, middle);
        trial = plan;
        if meets {
            with = middle;
        } else {
            beyond = middle;
        }
    }
    Sought {
        plan: trial,
        found: Some(with),
    }
}

/// The greatest cap of a task with which a die meets its bound. What its tests ask of a cap, a greater one has, too.
pub(crate) fn cap_margin(made: DieTerms, task: usize) -> CapMargin
    ensures same { result.made ≡ made }
    ensures found { FindsCap made.plan task result.found }
{
    let own = own_cap(&made.plan, task);
    let Sought { plan, found } = greatest(made.plan, task);
    let made = DieTerms {
        plan: with_cap(plan, task, own),
        terms: made.terms,
    };
    CapMargin { made, found }
}
