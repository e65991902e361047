//! What the tests of a die with terms answer, as lines of a text.

ghost use Rattle.std.specs.Prelude.{◌≡◌, ◌≤◌, ◌++◌, All, OnOk, slice_index_or};
ghost use Rattle.plan_rules.specs.Bound.{MeetsBound};
ghost use Rattle.plan_rules.specs.Times.{collection_work};
ghost use Rattle.demand_rules.specs.Demand.{IsTaskTerms};
ghost use Rattle.demand_rules.specs.Faults.{IsDemandLoad};
ghost use Rattle.terms_texts.specs.Stores.{IsUsable};
ghost use Rattle.flashplan_terms_design.specs.DieTexts.{collection_line, gain_line, gain_text, least_cap, load_line, load_text};
ghost use Rattle.flashplan_terms_design.specs.DieTexts.{passing_text, stock_line, stock_text, supply_line, supply_lines};
ghost use Rattle.flashplan_terms_design.specs.DieTexts.{asked_text, interval_text, spare_text, tightest_line, tightest_text};

use crate::numbers::{cap_of, put_die, put_numbers, put_task};
use demand_rules::{DemandLoad, TaskTerms};
use flashplan_slot_times::Slots;
use slot_types::DiePlan;
use std::io;
use std::io::Write;
use terms_texts::DieTerms;

/// Adds the most slots of a collection.
fn put_collection(
    text: &mut Vec<u8>,
    die: usize,
    plan: &DiePlan,
    slot_us: Option<u32>,
) -> io::Result<()>
    requires { MeetsBound plan.now }
    ensures { OnOk result (text.new.items ≡ text.old.items ++ collection_line slot_us die plan.now) }
{
    put_die(text, die)?;
    let work = 2 * (plan.shape.pages - plan.alpha) + plan.shape.erase_slots;
    let slots = Slots {
        count: u64::from(work),
        slot_us,
    };
    writeln!(text, "a collection takes at most {slots} slots.")
}

/// Adds the long-run load.
fn put_load(text: &mut Vec<u8>, load: u32) -> io::Result<()>
    ensures { OnOk result (text.new.items ≡ text.old.items ++ load_text load) }
{
    writeln!(
        text,
        "in the long run {load} of each 1000000 slots are asked for."
    )
}

/// Adds that of a die.
fn put_die_load(text: &mut Vec<u8>, die: usize, found: &DemandLoad) -> io::Result<()>
    ensures { OnOk result (text.new.items ≡ text.old.items ++ load_line die found.now) }
{
    put_die(text, die)?;
    put_load(text, found.load)
}

/// Adds how long an interval is.
fn put_interval(text: &mut Vec<u8>, slots: u32, slot_us: Option<u32>) -> io::Result<()>
    ensures { OnOk result (text.new.items ≡ text.old.items ++ interval_text slot_us slots) }
{
    let slots = Slots {
        count: u64::from(slots),
        slot_us,
    };
    write!(text, "the tightest interval has {slots} slots")
}

/// Adds what may be asked of it.
fn put_asked(text: &mut Vec<u8>, demand: u32, slot_us: Option<u32>) -> io::Result<()>
    ensures { OnOk result (text.new.items ≡ text.old.items ++ asked_text slot_us demand) }
{
    let demand = Slots {
        count: u64::from(demand),
        slot_us,
    };
    write!(text, ", of which {demand} may be asked for")
}

/// Adds both.
fn put_asked_interval(
    text: &mut Vec<u8>,
    slots: u32,
    demand: u32,
    slot_us: Option<u32>,
) -> io::Result<()>
    ensures { OnOk result (text.new.items
        ≡ text.old.items ++ (interval_text slot_us slots ++ asked_text slot_us demand)) }
{
    put_interval(text, slots, slot_us)?;
    put_asked(text, demand, slot_us)
}

/// Adds what is to spare of it.
fn put_spare(text: &mut Vec<u8>, slack: u32, slot_us: Option<u32>) -> io::Result<()>
    ensures { OnOk result (text.new.items ≡ text.old.items ++ spare_text slot_us slack) }
{
    let spare = Slots {
        count: u64::from(slack),
        slot_us,
    };
    writeln!(text, ": {spare} to spare.")
}

/// Adds the tightest interval.
fn put_tightest(
    text: &mut Vec<u8>,
    tightest: u32,
    demand: u32,
    slack: u32,
    slot_us: Option<u32>,
) -> io::Result<()>
    ensures { OnOk result (text.new.items ≡ text.old.items ++ tightest_text slot_us tightest demand slack) }
{
    put_asked_interval(text, tightest, demand, slot_us)?;
    put_spare(text, slack, slot_us)
}

/// Adds that of a die.
fn put_die_tightest(
    text: &mut Vec<u8>,
    die: usize,
    found: &DemandLoad,
    slot_us: Option<u32>,
) -> io::Result<()>
    requires { found.now.slack ≤ found.now.tightest }
    ensures { OnOk result (text.new.items ≡ text.old.items ++ tightest_line slot_us die found.now) }
{
    put_die(text, die)?;
    let (tightest, slack) = (found.tightest, found.slack);
    put_tightest(text, tightest, tightest - slack, slack, slot_us)
}

/// The least cap that would do. Within their limits its numbers stay below 2^60.
fn least_cap(plan: &DiePlan, task: &TaskTerms) -> u64
    requires bound { MeetsBound plan.now }
    requires limits { IsTaskTerms task.now }
    ensures { result ≡ least_cap plan.now task.now }
{
    let period = u64::from(task.period);
    let wanted = u64::from(task.writes) * (period + u64::from(task.held))
        + 2 * u64::from(plan.alpha) * period;
    (wanted + (period - 1)) / period
}

/// Adds a margin of what collections give.
fn put_gain_text(text: &mut Vec<u8>, gained: u64, written: u64, spare: u64) -> io::Result<()>
    ensures { OnOk result (text.new.items ≡ text.old.items ++ gain_text gained written spare) }
{
    writeln!(
        text,
        "alpha * period is {gained}, and writes * collect_period is {written}: {spare} to spare."
    )
}

/// Adds what a task's collections give, compared with what its jobs write.
fn put_gain(text: &mut Vec<u8>, plan: &DiePlan, task: &TaskTerms) -> io::Result<()>
    requires bound { MeetsBound plan.now }
    requires limits { IsTaskTerms task.now }
    ensures { OnOk result (text.new.items ≡ text.old.items ++ gain_line plan.now task.now) }
{
    let gained = u64::from(plan.alpha) * u64::from(task.period);
    let written = u64::from(task.writes) * u64::from(task.collect_period);
    put_gain_text(text, gained, written, gained.saturating_sub(written))
}

/// Adds a margin of a cap.
fn put_stock_text(text: &mut Vec<u8>, cap: u32, least: u64, spare: u64) -> io::Result<()>
    ensures { OnOk result (text.new.items ≡ text.old.items ++ stock_text cap least spare) }
{
    writeln!(
        text,
        "cap is {cap}, and has to be at least {least}: {spare} to spare."
    )
}

/// Adds a task's cap, compared with what it has to cover.
fn put_stock(text: &mut Vec<u8>, plan: &DiePlan, cap: u32, task: &TaskTerms) -> io::Result<()>
    requires bound { MeetsBound plan.now }
    requires limits { IsTaskTerms task.now }
    ensures { OnOk result (text.new.items ≡ text.old.items ++ stock_line plan.now cap task.now) }
{
    let least = least_cap(plan, task);
    put_stock_text(text, cap, least, u64::from(cap).saturating_sub(least))
}

/// Adds what of a task's writes comes back to it.
fn put_supply(
    text: &mut Vec<u8>,
    die: usize,
    task: usize,
    plan: &DiePlan,
    terms: &TaskTerms,
) -> io::Result<()>
    requires bound { MeetsBound plan.now }
    requires limits { IsTaskTerms terms.now }
    ensures { OnOk result (text.new.items ≡ text.old.items
        ++ supply_line die task plan.now (slice_index_or plan.now.caps task 0) terms.now) }
{
    put_task(text, die, task)?;
    put_gain(text, plan, terms)?;
    put_task(text, die, task)?;
    put_stock(text, plan, cap_of(plan.caps.as_slice(), task), terms)
}

/// Adds that of all tasks.
fn put_supplies(
    text: &mut Vec<u8>,
    die: usize,
    plan: &DiePlan,
    tasks: &[TaskTerms],
) -> io::Result<()>
    requires bound { MeetsBound plan.now }
    requires limits { All IsTaskTerms tasks.now }
    ensures { OnOk result (text.new.items ≡ text.old.items ++ supply_lines die plan.now tasks.now) }
{
    for task in 0..tasks.len() {
        put_supply(text, die, task, plan, &tasks[task])?;
    }
    Ok(())
}

/// Adds what the tests of a die answer.
pub fn put_passing(
    text: &mut Vec<u8>,
    die: usize,
    made: &DieTerms,
    found: &DemandLoad,
    slot_us: Option<u32>,
) -> io::Result<()>
    requires usable { IsUsable made.now }
    requires tested { IsDemandLoad made.now.plan made.now.terms found.now }
    ensures { OnOk result (text.new.items ≡ text.old.items ++ passing_text slot_us die made.now found.now) }
{
    put_numbers(text, die, made, slot_us)?;
    put_collection(text, die, &made.plan, slot_us)?;
    put_die_load(text, die, found)?;
    put_die_tightest(text, die, found, slot_us)?;
    put_supplies(text, die, &made.plan, made.terms.tasks.as_slice())
}
