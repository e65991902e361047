//! How far each number of a task's terms may change, one at a time.

ghost use Rattle.std.specs.Prelude.{◌≡◌};
ghost use Rattle.demand_rules.specs.Demand.{terms_of};
ghost use Rattle.flashplan_terms_margins.specs.Changes.{AreMargins};

use crate::attempts::with_own;
use crate::numbers::Number;
use crate::sought::{least, most};
use demand_rules::TaskTerms;
use slot_types::MAX_SLOT;
use terms_texts::DieTerms;

/// How far each number of a task's terms may change, all else being as it is. There is none where the die would do with no
/// number of that kind: not with the one that asks for least.
#[derive(Clone, Copy, PartialEq, Eq, Debug, Drop)]
pub struct TaskMargins {
    /// The greatest work, 1 to 1,048,576, and at least `writes`.
    pub work: Option<u32>,
    /// The greatest writes, 0 to `work`.
    pub writes: Option<u32>,
    /// The least period, 1 to 4,294,967,295.
    pub period: Option<u32>,
    /// The least deadline, 1 to `held`.
    pub deadline: Option<u32>,
    /// The least collect deadline, 1 to `collect_period`.
    pub collect_deadline: Option<u32>,
}

/// A die whose margins were sought, and those of a task.
#[derive(Drop)]
pub struct Margins {
    /// The die as it was.
    pub made: DieTerms,
    pub margins: TaskMargins,
}

/// The terms of a task; a task that the plan doesn't have asks for nothing.
pub fn own_terms(made: &DieTerms, task: usize) -> TaskTerms
    ensures { result ≡ terms_of made.now.terms task }
{
    match made.terms.tasks.get(task) {
        Some(own) => *own,
        None => TaskTerms {
            period: 0,
            deadline: 0,
            held: 0,
            work: 0,
            writes: 0,
            collect_period: 0,
            collect_deadline: 0,
        },
    }
}

/// How far each number of a task's terms may change, each tried by the tests of the die. It takes any plan, and no memory.
pub fn task_margins(made: DieTerms, task: usize) -> Margins
    ensures same { result.made ≡ made }
    ensures margins { AreMargins made task (terms_of made.terms task) result.margins }
{
    let own = own_terms(&made, task);
    let work = most(made, task, &own, Number::Work, own.writes.max(1), MAX_SLOT);
    let most_writes = own.work.min(MAX_SLOT);
    let writes = most(work.made, task, &own, Number::Writes, 0, most_writes);
    let period = least(writes.made, task, &own, Number::Period, 1, u32::MAX);
    let deadline = least(period.made, task, &own, Number::Deadline, 1, own.held);
    let most_collect = own.collect_period;
    let collect = least(
        deadline.made,
        task,
        &own,
        Number::CollectDeadline,
        1,
        most_collect,
    );
    Margins {
        made: with_own(collect.made, task, own),
        margins: TaskMargins {
            work: work.found,
            writes: writes.found,
            period: period.found,
            deadline: deadline.found,
            collect_deadline: collect.found,
        },
    }
}
