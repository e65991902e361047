//! The text of a plan with terms.

ghost use Rattle.std.specs.Prelude.{◌≡◌, ◌≤◌, ◌⊎◌, ℕ, List, pos, IfErr, IfOk, Ok, string_bytes};
ghost use Rattle.slot_types.specs.Refusal.{FailsForMemory};
ghost use Rattle.toml.specs.Data.{as_table, depth, integer, items_depth, members_depth};
ghost use Rattle.toml.specs.View.{items_view, table_view, view};
ghost use Rattle.terms_texts.specs.Keys.{name_of};
ghost use Rattle.terms_texts.specs.Refusing.{IsMemory};
ghost use Rattle.terms_texts.specs.TermsText.{numbers_of, read_numbers, task_in, tasks_of};
ghost use Rattle.terms_texts.specs.Written.{plan_members, task_members, with_member, with_number};
ghost use Rattle.terms_texts.specs.declared.numbers.TaskNumbers.{TaskNumbers as TaskSaid};

use crate::faults::{Place, TermsRefusal};
use crate::keys::Key;
use crate::numbers::{TaskNumbers, TermsNumbers, TopNumbers};
use slot_types::{Cause, Refusal};
use std::alloc::Global;
use toml::{Table, Value};

/// The most bytes of a plan's text.
const MAX_TEXT: usize = 1_048_576;

/// Puts a value at a key of a table.
fn put(alloc: Global, table: &mut Table, key: Key, value: Value) -> Result<(), Refusal>
    ensures ok { IfOk result (λ _. table_view table.new
        ≡ with_member (name_of key) (view value) (table_view table.old)) }
    ensures refused { FailsForMemory result }
{
    let name = String::from_str(alloc, key.name())?;
    table.insert(name, value)?;
    Ok(())
}

/// Puts a number at a key of a table.
fn put_number(alloc: Global, table: &mut Table, key: Key, number: u32) -> Result<(), Refusal>
    ensures ok { IfOk result (λ _. table_view table.new
        ≡ with_number key number (table_view table.old)) }
    ensures refused { FailsForMemory result }
{
    put(alloc, table, key, Value::from(number))
}

/// The table of a task.
fn task_table(alloc: Global, task: TaskNumbers) -> Result<Table, Refusal>
    ensures ok { IfOk result (λ table. table_view table ≡ task_members task) }
    ensures refused { FailsForMemory result }
{
    let mut table = Table::new(alloc);
    put_number(alloc, &mut table, Key::Die, task.die)?;
    put_number(alloc, &mut table, Key::Cap, task.cap)?;
    put_number(alloc, &mut table, Key::Period, task.terms.period)?;
    put_number(alloc, &mut table, Key::Deadline, task.terms.deadline)?;
    put_number(alloc, &mut table, Key::Held, task.terms.held)?;
    put_number(alloc, &mut table, Key::Work, task.terms.work)?;
    put_number(alloc, &mut table, Key::Writes, task.terms.writes)?;
    put_number(
        alloc,
        &mut table,
        Key::CollectPeriod,
        task.terms.collect_period,
    )?;
    put_number(
        alloc,
        &mut table,
        Key::CollectDeadline,
        task.terms.collect_deadline,
    )?;
    Ok(table)
}

/// A task as it is written, which is read as this task wherever it stands.
fn task_value(alloc: Global, task: TaskNumbers) -> Result<Value, Refusal>
    ensures back { IfOk result (λ value. (i : ℕ) → task_in i (as_table (view value)) ≡ Ok task) }
    ensures flat { IfOk result (λ value. depth (view value) ≤ 1) }
    ensures refused { FailsForMemory result }
{
    let table = task_table(alloc, task)?;
    Ok(Value::from(table))
}

/// The tasks as they are written, in their order.
fn task_values(alloc: Global, tasks: &[TaskNumbers]) -> Result<Vec<Value>, Refusal>
    ensures back { IfOk result (λ values. tasks_of 0 (items_view values.items) ≡ Ok tasks.now) }
    ensures flat { IfOk result (λ values. items_depth (items_view values.items) ≤ 1) }
    ensures refused { FailsForMemory result }
{
    let mut values = Vec::new(alloc);
    for i in 0..tasks.len() {
        let task = tasks[i];
        let value = task_value(alloc, task)?;
        values.push(value)?;
    }
    Ok(values)
}

/// The table of a plan, whose tasks are these.
fn plan_table(alloc: Global, top: TopNumbers, tasks: Vec<Value>) -> Result<Table, Refusal>
    ensures ok { IfOk result (λ table. table_view table
        ≡ plan_members top (items_view tasks.items)) }
    ensures refused { FailsForMemory result }
{
    let mut table = Table::new(alloc);
    put_number(alloc, &mut table, Key::Terms, 1)?;
    put_number(alloc, &mut table, Key::Dies, top.dies)?;
    put_number(alloc, &mut table, Key::Blocks, top.blocks)?;
    put_number(alloc, &mut table, Key::Pages, top.pages)?;
    put_number(alloc, &mut table, Key::EraseSlots, top.erase_slots)?;
    put_number(alloc, &mut table, Key::Logical, top.logical)?;
    put_number(alloc, &mut table, Key::Alpha, top.alpha)?;
    put(alloc, &mut table, Key::Task, Value::from(tasks))?;
    Ok(table)
}

/// The same, which is read as a plan of these numbers.
fn whole_table(alloc: Global, top: TopNumbers, tasks: Vec<Value>) -> Result<Table, Refusal>
    ensures back { IfOk result (λ table. (said : List TaskSaid) →
        tasks_of 0 (items_view tasks.items) ≡ Ok said →
        numbers_of (table_view table) ≡ Ok (record { top = top; tasks = said })) }
    ensures flat { IfOk result (λ table. items_depth (items_view tasks.items) ≤ 1 →
        members_depth (table_view table) ≤ 80) }
    ensures refused { FailsForMemory result }
{
    let table = plan_table(alloc, top, tasks)?;
    Ok(table)
}

/// Writes the numbers of a plan as a text, which [`terms_numbers`](crate::terms_numbers) reads back. Numbers that make no
/// plan are written, too. Refused as Text with TooLong where the text would have more than 1,048,576 bytes, or as
/// NoMemory.
pub fn write_terms(alloc: Global, plan: &TermsNumbers) -> Result<String, TermsRefusal>
    ensures back { IfOk result (λ text. read_numbers (string_bytes text) ≡ Ok plan.now) }
    ensures refused { IfErr result (λ refusal.
        IsMemory refusal ⊎ (refusal ≡ TermsRefusal.Text Cause.TooLong Place.Whole)) }
{
    let tasks = task_values(alloc, plan.tasks.as_slice())?;
    let table = whole_table(alloc, plan.top, tasks)?;
    let Ok(text) = toml::table_to_string(alloc, &table) else {
        return Err(TermsRefusal::Outside(Refusal::NoMemory));
    };
    if text.len() > MAX_TEXT {
        return Err(TermsRefusal::Text {
            cause: Cause::TooLong,
            place: Place::Whole,
        });
    }
    Ok(text)
}
