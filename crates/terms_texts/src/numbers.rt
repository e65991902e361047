//! The numbers of a plan's text.

ghost use Rattle.std.specs.Prelude.{◌≡◌, is_some, option_and_then, MatchResult, Ok, Err};
ghost use Rattle.std.specs.List.{list_all};
ghost use Rattle.toml.specs.Data.{as_array, as_table, get_member};
ghost use Rattle.toml.specs.View.{table_view, items_view, view};
ghost use Rattle.plan_texts.specs.PlanText.{are_tables};
ghost use Rattle.terms_texts.specs.Keys.{name_of};
ghost use Rattle.terms_texts.specs.Refusing.{GivesReading, Shows};
ghost use Rattle.terms_texts.specs.TermsText.{checked_version, numbers_of, read_numbers, table_of, tables_or, task_of, tasks_of, terms_in, top_of};

use crate::faults::{Place, TableName, TermsRefusal};
use crate::keys::Key;
use crate::tables::{check_task_keys, check_top_keys, find, number_in};
use demand_rules::TaskTerms;
use slot_types::{Cause, Items, Refusal};
use std::alloc::Global;
use toml::{Table, Value};

/// The most bytes of a plan's text.
const MAX_TEXT: usize = 1_048_576;

/// Of a text that is longer.
const TOO_LONG: TermsRefusal = TermsRefusal::Text {
    cause: Cause::TooLong,
    place: Place::Whole,
};

/// Of a text that is no TOML, or no UTF-8.
const NOT_TOML: TermsRefusal = TermsRefusal::Text {
    cause: Cause::NotToml,
    place: Place::Whole,
};

/// Where at `task` stands no array of tables.
const NO_TABLES: TermsRefusal = TermsRefusal::Text {
    cause: Cause::WrongKind,
    place: Place::At {
        table: TableName::Top,
        key: Key::Task,
    },
};

/// What a plan says of all its dies.
#[derive(Clone, Copy, PartialEq, Eq, Debug, Drop)]
pub struct TopNumbers {
    pub dies: u32,
    pub blocks: u32,
    pub pages: u32,
    pub erase_slots: u32,
    pub logical: u32,
    pub alpha: u32,
}

/// What a plan says of a task.
#[derive(Clone, Copy, PartialEq, Eq, Debug, Drop)]
pub struct TaskNumbers {
    pub die: u32,
    pub cap: u32,
    pub terms: TaskTerms,
}

/// The tasks of all dies, in the order of the text.
pub type TaskList = Items<TaskNumbers>;

/// What a plan's text says.
#[derive(Drop)]
pub struct TermsNumbers {
    pub top: TopNumbers,
    pub tasks: TaskList,
}

/// The numbers of the top table.
#[tactic(auto, unfolding(crate::specs::TermsText::top_of))]
fn top(table: &Table) -> Result<TopNumbers, TermsRefusal>
    ensures { result ≡ top_of (table_view table.now) }
{
    check_top_keys(table)?;
    number_in(table, TableName::Top, Key::Terms)?;
    let dies = number_in(table, TableName::Top, Key::Dies)?;
    let blocks = number_in(table, TableName::Top, Key::Blocks)?;
    let pages = number_in(table, TableName::Top, Key::Pages)?;
    let erase_slots = number_in(table, TableName::Top, Key::EraseSlots)?;
    let logical = number_in(table, TableName::Top, Key::Logical)?;
    let alpha = number_in(table, TableName::Top, Key::Alpha)?;
    Ok(TopNumbers {
        dies,
        blocks,
        pages,
        erase_slots,
        logical,
        alpha,
    })
}

/// The terms in a task.
#[tactic(auto, unfolding(crate::specs::TermsText::terms_in))]
fn terms(table: &Table, name: TableName) -> Result<TaskTerms, TermsRefusal>
    ensures { result ≡ terms_in name (table_view table.now) }
{
    let period = number_in(table, name, Key::Period)?;
    let deadline = number_in(table, name, Key::Deadline)?;
    let held = number_in(table, name, Key::Held)?;
    let work = number_in(table, name, Key::Work)?;
    let writes = number_in(table, name, Key::Writes)?;
    let collect_period = number_in(table, name, Key::CollectPeriod)?;
    let collect_deadline = number_in(table, name, Key::CollectDeadline)?;
    Ok(TaskTerms {
        period,
        deadline,
        held,
        work,
        writes,
        collect_period,
        collect_deadline,
    })
}

/// The numbers of a task.
#[tactic(auto, unfolding(crate::specs::TermsText::task_of))]
fn task(table: &Table, name: TableName) -> Result<TaskNumbers, TermsRefusal>
    ensures { result ≡ task_of name (table_view table.now) }
{
    check_task_keys(table, name)?;
    let die = number_in(table, name, Key::Die)?;
    let cap = number_in(table, name, Key::Cap)?;
    let terms = terms(table, name)?;
    Ok(TaskNumbers { die, cap, terms })
}

/// The numbers of the tasks, in their order.
fn tasks(alloc: Global, tables: &[Value]) -> Result<TaskList, TermsRefusal>
    ensures { GivesReading result (tasks_of 0 (items_view tables.now)) }
{
    let mut tasks = TaskList::new(alloc);
    for i in 0..tables.len() {
        let Some(table) = tables[i].as_table() else {
            return Err(NO_TABLES);
        };
        match task(table, TableName::Task { task: i }) {
            Ok(task) => tasks.push(task)?,
            Err(refusal) => return Err(refusal),
        }
    }
    Ok(tasks)
}

/// Whether all items are tables.
fn hold_tables(items: &[Value]) -> bool
    ensures { result ≡ list_all (λ v. is_some (as_table (view v))) items.now }
{
    items.iter().all(|item| item.as_table().is_some())
}

/// Whether all items of an array are tables.
fn is_of_tables(items: &[Value]) -> bool
    ensures { result ≡ are_tables (items_view items.now) }
{
    hold_tables(items)
}

/// The array of tables at the key `task`.
fn task_tables(table: &Table) -> Result<&[Value], TermsRefusal>
    ensures { MatchResult result
        (λ items. tables_or
        (option_and_then as_array (get_member (name_of Key.Task) (table_view table.now)))
        ≡ Ok (items_view items.now))
        (λ c. tables_or
        (option_and_then as_array (get_member (name_of Key.Task) (table_view table.now)))
        ≡ Err c) }
{
    let Some(value) = find(table, Key::Task.name()) else {
        return Err(NO_TABLES);
    };
    let Some(items) = value.as_array() else {
        return Err(NO_TABLES);
    };
    if !is_of_tables(items) {
        return Err(NO_TABLES);
    }
    Ok(items.as_slice())
}

/// The number at `terms` is 1.
fn check_terms(table: &Table) -> Result<(), TermsRefusal>
    ensures { result ≡ checked_version (table_view table.now) }
{
    let terms = number_in(table, TableName::Top, Key::Terms)?;
    if terms != 1 {
        return Err(TermsRefusal::Text {
            cause: Cause::BadVersion,
            place: Place::At {
                table: TableName::Top,
                key: Key::Terms,
            },
        });
    }
    Ok(())
}

/// The numbers of a plan's table.
#[tactic(auto, unfolding(crate::specs::TermsText::numbers_of))]
fn numbers(alloc: Global, table: &Table) -> Result<TermsNumbers, TermsRefusal>
    ensures { GivesReading result (numbers_of (table_view table.now)) }
{
    let top = top(table)?;
    let tables = task_tables(table)?;
    check_terms(table)?;
    let tasks = tasks(alloc, tables)?;
    Ok(TermsNumbers { top, tasks })
}

/// The table of a text.
fn table(alloc: Global, text: &[u8]) -> Result<Table, TermsRefusal>
    ensures { Shows table_view result (table_of text.now) }
{
    if text.len() > MAX_TEXT {
        return Err(TOO_LONG);
    }
    let Ok(text) = std::str::from_utf8(text) else {
        return Err(NOT_TOML);
    };
    match toml::table_from_str(alloc, text) {
        Ok(table) => Ok(table),
        Err(e) if e.is_memory() => Err(TermsRefusal::Outside(Refusal::NoMemory)),
        Err(_) => Err(NOT_TOML),
    }
}

/// The numbers of a plan's text, which aren't judged together: a text that is read may still make no plan. Refused
/// as Text with the first fault of the text, as [`read_terms`](crate::read_terms) says, or as NoMemory.
pub fn terms_numbers(alloc: Global, text: &[u8]) -> Result<TermsNumbers, TermsRefusal>
    ensures { GivesReading result (read_numbers text.now) }
{
    let table = table(alloc, text)?;
    numbers(alloc, &table)
}
