//! The numbers of a plan's text.

ghost use Rattle.std.specs.Prelude.{◌≡◌, is_some, codes, option_and_then, MatchResult, Ok, Err};
ghost use Rattle.std.specs.List.{list_all};
ghost use Rattle.toml.specs.Data.{as_array, as_table, get_member};
ghost use Rattle.toml.specs.View.{table_view, items_view, view};
ghost use Rattle.text_base.specs.Readings.{GivesReading, Shows};
ghost use Rattle.plan_texts.specs.PlanText.{are_tables, common_of, numbers_of, plan_of, table_of, tables_or, task_of, task_times_read};
ghost use Rattle.plan_texts.specs.PlanText.{tasks_of, times_in, top_of};

use crate::tables::{check_task_keys, check_top_keys, find, has_times, number_in};
use slot_types::{Cause, Items, Refusal, TaskTimes};
use std::alloc::Global;
use toml::{Table, Value};

/// The most bytes of a plan's text.
const MAX_TEXT: usize = 1_048_576;

/// What a plan says of all its dies.
#[derive(Clone, Copy, PartialEq, Eq, Debug, Drop)]
pub struct TopNumbers {
    pub version: u32,
    pub dies: u32,
    pub blocks: u32,
    pub pages: u32,
    pub erase_slots: u32,
    pub logical: u32,
    pub alpha: u32,
    /// The hyperperiod; none where the plan has no times.
    pub common: Option<u32>,
}

/// What a plan says of a task.
#[derive(Clone, Copy, PartialEq, Eq, Debug, Drop)]
pub struct TaskNumbers {
    pub die: u32,
    pub cap: u32,
    /// None where the plan has no times.
    pub times: Option<TaskTimes>,
}

/// The tasks of all dies, in the order of the text.
pub type TaskList = Items<TaskNumbers>;

/// What a plan's text says.
#[derive(Drop)]
pub struct PlanNumbers {
    pub top: TopNumbers,
    pub tasks: TaskList,
}

/// The hyperperiod, in a plan with times.
fn common(table: &Table, timed: bool) -> Result<Option<u32>, Refusal>
    ensures { result ≡ common_of timed (table_view table.now) }
{
    if !timed {
        return Ok(None);
    }
    let common = number_in(table, "common")?;
    Ok(Some(common))
}

/// The numbers of the top table, of a plan with times or without.
#[tactic(auto, unfolding(crate::specs::PlanText::top_of))]
fn top(table: &Table, timed: bool) -> Result<TopNumbers, Refusal>
    ensures { result ≡ top_of timed (table_view table.now) }
{
    check_top_keys(table, timed)?;
    let version = number_in(table, "version")?;
    let dies = number_in(table, "dies")?;
    let blocks = number_in(table, "blocks")?;
    let pages = number_in(table, "pages")?;
    let erase_slots = number_in(table, "erase_slots")?;
    let logical = number_in(table, "logical")?;
    let alpha = number_in(table, "alpha")?;
    let common = common(table, timed)?;
    Ok(TopNumbers {
        version,
        dies,
        blocks,
        pages,
        erase_slots,
        logical,
        alpha,
        common,
    })
}

/// The times in a task.
#[tactic(auto, unfolding(crate::specs::PlanText::times_in))]
fn times(table: &Table) -> Result<TaskTimes, Refusal>
    ensures { result ≡ times_in (table_view table.now) }
{
    let period = number_in(table, "period")?;
    let collect_period = number_in(table, "collect_period")?;
    let work = number_in(table, "work")?;
    let writes = number_in(table, "writes")?;
    Ok(TaskTimes {
        period,
        collect_period,
        work,
        writes,
    })
}

/// The times of a task, in a plan with times.
fn task_times(table: &Table, timed: bool) -> Result<Option<TaskTimes>, Refusal>
    ensures { result ≡ task_times_read timed (table_view table.now) }
{
    if !timed {
        return Ok(None);
    }
    let times = times(table)?;
    Ok(Some(times))
}

/// The numbers of a task, of a plan with times or without.
#[tactic(auto, unfolding(crate::specs::PlanText::task_of))]
fn task(table: &Table, timed: bool) -> Result<TaskNumbers, Refusal>
    ensures { result ≡ task_of timed (table_view table.now) }
{
    check_task_keys(table, timed)?;
    let die = number_in(table, "die")?;
    let cap = number_in(table, "cap")?;
    let times = task_times(table, timed)?;
    Ok(TaskNumbers { die, cap, times })
}

/// The numbers of the tasks, in their order.
fn tasks(alloc: Global, tables: &[Value], timed: bool) -> Result<TaskList, Refusal>
    ensures { GivesReading result (tasks_of timed (items_view tables.now)) }
{
    let mut tasks = TaskList::new(alloc);
    for i in 0..tables.len() {
        let Some(table) = tables[i].as_table() else {
            return Err(Refusal::PlanText {
                cause: Cause::WrongKind,
            });
        };
        match task(table, timed) {
            Ok(task) => tasks.push(task)?,
            Err(refusal) => return Err(refusal),
        }
    }
    Ok(tasks)
}

/// Whether all items are tables.
fn hold_tables(items: &[Value]) -> bool
    ensures { result ≡ list_all (λ v. is_some (as_table (view v))) items.now }
{
    items.iter().all(|item| item.as_table().is_some())
}

/// Whether all items of an array are tables.
fn is_of_tables(items: &[Value]) -> bool
    ensures { result ≡ are_tables (items_view items.now) }
{
    hold_tables(items)
}

/// The array of tables at the key `task`.
fn task_tables(table: &Table) -> Result<&[Value], Refusal>
    ensures { MatchResult result
        (λ items. tables_or
        (option_and_then as_array (get_member (codes "task") (table_view table.now)))
        ≡ Ok (items_view items.now))
        (λ c. tables_or
        (option_and_then as_array (get_member (codes "task") (table_view table.now))) ≡ Err c) }
{
    let Some(value) = find(table, "task") else {
        return Err(Refusal::PlanText {
            cause: Cause::WrongKind,
        });
    };
    let Some(items) = value.as_array() else {
        return Err(Refusal::PlanText {
            cause: Cause::WrongKind,
        });
    };
    if !is_of_tables(items) {
        return Err(Refusal::PlanText {
            cause: Cause::WrongKind,
        });
    }
    Ok(items.as_slice())
}

/// The numbers of a plan's table.
#[tactic(auto, unfolding(crate::specs::PlanText::numbers_of))]
fn numbers(alloc: Global, table: &Table) -> Result<PlanNumbers, Refusal>
    ensures { GivesReading result (numbers_of (table_view table.now)) }
{
    let timed = has_times(table);
    let top = top(table, timed)?;
    let tables = task_tables(table)?;
    if top.version != 1 && top.version != 2 {
        return Err(Refusal::PlanText {
            cause: Cause::BadVersion,
        });
    }
    let tasks = tasks(alloc, tables, timed)?;
    Ok(PlanNumbers { top, tasks })
}

/// The table of a text.
fn table(alloc: Global, text: &[u8]) -> Result<Table, Refusal>
    ensures { Shows table_view result (table_of text.now) }
{
    if text.len() > MAX_TEXT {
        return Err(Refusal::PlanText {
            cause: Cause::TooLong,
        });
    }
    let Ok(text) = std::str::from_utf8(text) else {
        return Err(Refusal::PlanText {
            cause: Cause::NotToml,
        });
    };
    match toml::table_from_str(alloc, text) {
        Ok(table) => Ok(table),
        Err(e) if e.is_memory() => Err(Refusal::NoMemory),
        Err(_) => Err(Refusal::PlanText {
            cause: Cause::NotToml,
        }),
    }
}

/// The numbers of a plan's text, which aren't judged together: a text that is read may still make no store.
/// Refused as PlanText with the first fault of the text, as [`read_plan`](crate::read_plan) says, or as NoMemory.
pub fn plan_numbers(alloc: Global, text: &[u8]) -> Result<PlanNumbers, Refusal>
    ensures { GivesReading result (plan_of text.now) }
{
    let table = table(alloc, text)?;
    numbers(alloc, &table)
}
