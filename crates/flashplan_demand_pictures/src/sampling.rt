//! The points of a picture: what may be asked of intervals of several lengths.

ghost use Rattle.std.specs.Prelude.{◌≡◌, ◌≤◌, ◌*◌, IfOk};
ghost use Rattle.plan_rules.specs.Bound.{MeetsBound};
ghost use Rattle.demand_rules.specs.Demand.{HasTerms};
ghost use Rattle.slot_types.specs.Refusal.{FailsForMemory};
ghost use Rattle.flashplan_demand_pictures.specs.Points.{point_at, points_of};

use crate::amounts::demand_of;
use slot_types::Refusal;
use std::alloc::Global;
use terms_texts::DieTerms;

/// An interval, by its length in slots, and how many slots may be asked of it.
#[derive(Clone, Copy, PartialEq, Eq, Debug, Drop)]
pub struct Point {
    pub slots: u32,
    pub demand: u64,
}

/// The point of a length, which is 1,048,576 at most.
pub(crate) fn point_at(made: &DieTerms, slots: u32) -> Point
    requires bound { MeetsBound made.now.plan }
    requires has { HasTerms made.now.plan made.now.terms }
    requires slots { slots ≤ 1048576 }
    ensures { result ≡ point_at made.now slots }
{
    Point {
        slots,
        demand: demand_of(made, slots),
    }
}

/// `count` points of a die: of the intervals of 0 slots, of `step`, and so on, each `step` slots longer, up to
/// 1,048,576 slots. The only refusal is NoMemory.
pub fn points(alloc: Global, made: &DieTerms, step: u32, count: u32) -> Result<Vec<Point>, Refusal>
    requires bound { MeetsBound made.now.plan }
    requires has { HasTerms made.now.plan made.now.terms }
    requires slots { count * step ≤ 1048576 }
    ensures points { IfOk result (λ points. points.items ≡ points_of made.now step count) }
    ensures refused { FailsForMemory result }
{
    let mut points = Vec::new(alloc);
    for n in 0..count {
        points.push(point_at(made, n * step))?;
    }
    Ok(points)
}
