//! What a plan asks of its tables.

ghost use Rattle.std.specs.Prelude.{◌≡◌, option_map, option_and_then, string_bytes};
ghost use Rattle.std.specs.List.{list_all};
ghost use Rattle.std.specs.BTreeMap.{keys};
ghost use Rattle.toml.specs.Data.{get_member, as_integer};
ghost use Rattle.toml.specs.View.{table_view, view};
ghost use Rattle.plan_texts.specs.Tables.{checked_keys, has_member, has_only, has_task_keys, has_time_keys, has_times, has_top_keys};
ghost use Rattle.plan_texts.specs.Tables.{is_task_key, is_time_key, is_top_key, number_at, small_of};

use slot_types::{Cause, Refusal};
use toml::{Table, Value};

/// What a table has at a key.
pub fn find<'a>(table: &'a Table, key: &str) -> Option<&'a Value>
    ensures { option_map (λ v. view v.now) result ≡ get_member key.now (table_view table.now) }
{
    table.get(key)
}

/// Whether a table has this key.
fn has_key(table: &Table, key: &str) -> bool
    ensures { result ≡ has_member (table_view table.now) key.now }
{
    find(table, key).is_some()
}

/// Whether a key is one of the top table, of a plan with times or without.
fn names_top(key: &str, timed: bool) -> bool
    ensures { result ≡ is_top_key timed key.now }
{
    key == "version"
        || key == "dies"
        || key == "blocks"
        || key == "pages"
        || key == "erase_slots"
        || key == "logical"
        || key == "alpha"
        || key == "task"
        || (timed && key == "common")
}

/// Whether a key is one of the times of a task.
fn names_time(key: &str) -> bool
    ensures { result ≡ is_time_key key.now }
{
    key == "period" || key == "collect_period" || key == "work" || key == "writes"
}

/// Whether a key is one of a task, of a plan with times or without.
fn names_task(key: &str, timed: bool) -> bool
    ensures { result ≡ is_task_key timed key.now }
{
    key == "die" || key == "cap" || (timed && names_time(key))
}

/// Whether the top table lists no keys but its own.
fn lists_top_only(table: &Table, timed: bool) -> bool
    ensures { result ≡ list_all (λ k. is_top_key timed (string_bytes k)) (keys table.now) }
{
    table.keys().all(|key| names_top(key.as_str(), timed))
}

/// Whether a task lists no keys but its own.
fn lists_task_only(table: &Table, timed: bool) -> bool
    ensures { result ≡ list_all (λ k. is_task_key timed (string_bytes k)) (keys table.now) }
{
    table.keys().all(|key| names_task(key.as_str(), timed))
}

/// Whether the top table has no keys but its own.
fn is_top_only(table: &Table, timed: bool) -> bool
    ensures { result ≡ has_only (is_top_key timed) (table_view table.now) }
{
    lists_top_only(table, timed)
}

/// Whether a task has no keys but its own.
fn is_task_only(table: &Table, timed: bool) -> bool
    ensures { result ≡ has_only (is_task_key timed) (table_view table.now) }
{
    lists_task_only(table, timed)
}

/// Whether the top table has all its keys.
fn is_top_whole(table: &Table, timed: bool) -> bool
    ensures { result ≡ has_top_keys timed (table_view table.now) }
{
    has_key(table, "version")
        && has_key(table, "dies")
        && has_key(table, "blocks")
        && has_key(table, "pages")
        && has_key(table, "erase_slots")
        && has_key(table, "logical")
        && has_key(table, "alpha")
        && has_key(table, "task")
        && (!timed || has_key(table, "common"))
}

/// Whether a task has all its times.
fn is_time_whole(table: &Table) -> bool
    ensures { result ≡ has_time_keys (table_view table.now) }
{
    has_key(table, "period")
        && has_key(table, "collect_period")
        && has_key(table, "work")
        && has_key(table, "writes")
}

/// Whether a task has all its keys.
fn is_task_whole(table: &Table, timed: bool) -> bool
    ensures { result ≡ has_task_keys timed (table_view table.now) }
{
    has_key(table, "die") && has_key(table, "cap") && (!timed || is_time_whole(table))
}

/// The first fault of a table's keys: one that is not its own comes before one that it lacks.
fn check_keys(only: bool, whole: bool) -> Result<(), Refusal>
    ensures { result ≡ checked_keys only whole }
{
    if !only {
        return Err(Refusal::PlanText {
            cause: Cause::ExtraKey,
        });
    }
    if !whole {
        return Err(Refusal::PlanText {
            cause: Cause::MissingKey,
        });
    }
    Ok(())
}

/// The first fault of the top table's keys, in a plan with times or without.
pub fn check_top_keys(table: &Table, timed: bool) -> Result<(), Refusal>
    ensures { result
        ≡ checked_keys (has_only (is_top_key timed) (table_view table.now))
        (has_top_keys timed (table_view table.now)) }
{
    check_keys(is_top_only(table, timed), is_top_whole(table, timed))
}

/// The first fault of a task's keys, in a plan with times or without.
pub fn check_task_keys(table: &Table, timed: bool) -> Result<(), Refusal>
    ensures { result
        ≡ checked_keys (has_only (is_task_key timed) (table_view table.now))
        (has_task_keys timed (table_view table.now)) }
{
    check_keys(is_task_only(table, timed), is_task_whole(table, timed))
}

/// A whole number from 0 to 4,294,967,295.
fn number_of(value: &Value) -> Option<u32>
    ensures { result ≡ option_and_then small_of (as_integer (view value.now)) }
{
    match value.as_integer() {
        Some(number) => u32::try_from(number).ok(),
        None => None,
    }
}

/// Whether a plan has times: its version is the whole number 2.
pub fn has_times(table: &Table) -> bool
    ensures { result ≡ has_times (table_view table.now) }
{
    match find(table, "version") {
        Some(value) => number_of(value) == Some(2),
        None => false,
    }
}

/// The number at a key.
pub fn number_in(table: &Table, key: &str) -> Result<u32, Refusal>
    ensures { result ≡ number_at (table_view table.now) key.now }
{
    let Some(value) = find(table, key) else {
        return Err(Refusal::PlanText {
            cause: Cause::WrongKind,
        });
    };
    let Some(number) = number_of(value) else {
        return Err(Refusal::PlanText {
            cause: Cause::WrongKind,
        });
    };
    Ok(number)
}
