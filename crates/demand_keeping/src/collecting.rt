//! Whether a task's collections come where the plan has them.

ghost use Rattle.std.specs.Prelude.{◌≡◌, ℕ, ◌≤◌, false, [], ◌∷◌, All, IsTrue, IsNone, IfSome, count_by};
ghost use Rattle.plan_rules.specs.Keeping.{arrivals, slots, is_collection_at};
ghost use Rattle.demand_rules.specs.Demand.{IsTaskTerms, terms_of};
ghost use Rattle.demand_rules.specs.Keeping.{IsDemanded};
ghost use Rattle.demand_keeping.specs.Collecting.{IsCollected, IsCollection, IsFirstWrong};

use crate::windows::slots_in;
use demand_rules::{TaskTerms, Terms};
use slot_types::{DiePlan, Event, MAX_SLOT};

// Whether an event collects for a task.
fn collects(task: u32, event: &Event) -> bool
    ensures yes { IsTrue result → IsCollection task event.now }
    ensures no { result ≡ false → (now slot : ℕ) →
        count_by (is_collection_at task slot) (arrivals now (event.now ∷ [])) ≡ 0 }
{
    match event {
        Event::Collect { task: other, .. } => other.0 == task,
        _ => false,
    }
}

/// The first slot in which the plan has a collection of a task, and none comes, or more than one.
pub(crate) fn wrong_collection(
    plan: &DiePlan,
    terms: &Terms,
    task: u32,
    own: &TaskTerms,
    end: u32,
    events: &[Event],
) -> Option<u32>
    requires own { own.now ≡ terms_of terms.now task }
    requires limits { IsTaskTerms own.now }
    requires end { end ≡ slots events.now }
    requires few { end ≤ 1048576 }
    requires planned { All (IsDemanded plan.now terms.now end) (arrivals 0 events.now) }
    ensures none { IsNone result → IsCollected terms.now task events.now }
    ensures some { IfSome result (IsFirstWrong terms.now task events.now) }
{
    let mut now: u32 = 0;
    let mut next: u32 = 0;
    for i in 0..events.len() {
        if collects(task, &events[i]) {
            if now < next {
                return Some(now);
            }
            if next < now {
                return Some(next);
            }
            next += own.collect_period;
        }
        now += slots_in(&events[i]);
    }
    if next < end && u64::from(next) + u64::from(own.collect_deadline) <= u64::from(MAX_SLOT) {
        Some(next)
    } else {
        None
    }
}
