//! What a plan asks of its tables.

ghost use Rattle.std.specs.Prelude.{◌≡◌, option_map, option_and_then, string_bytes};
ghost use Rattle.std.specs.List.{list_all};
ghost use Rattle.std.specs.BTreeMap.{keys};
ghost use Rattle.toml.specs.Data.{get_member, as_integer};
ghost use Rattle.toml.specs.View.{table_view, view};
ghost use Rattle.plan_texts.specs.Tables.{has_member, has_only, is_text, small_of};
ghost use Rattle.terms_texts.specs.Keys.{is_task_key, is_top_key, name_of};
ghost use Rattle.terms_texts.specs.Tables.{key_at, no_version, number_at, own_keys, task_keys_of, top_keys_of};

use crate::faults::{Place, TableName, TermsRefusal};
use crate::keys::Key;
use slot_types::Cause;
use toml::{Table, Value};

/// A fault of a plan's text.
fn fault(cause: Cause, place: Place) -> TermsRefusal
    ensures { result ≡ TermsRefusal.Text cause place }
{
    TermsRefusal::Text { cause, place }
}

/// What a table has at a key.
pub fn find<'a>(table: &'a Table, key: &str) -> Option<&'a Value>
    ensures { option_map (λ v. view v.now) result ≡ get_member key.now (table_view table.now) }
{
    table.get(key)
}

/// Whether a table has this key.
fn has_key(table: &Table, key: Key) -> bool
    ensures { result ≡ has_member (table_view table.now) (name_of key) }
{
    find(table, key.name()).is_some()
}

/// Whether this is the name of a key.
fn is_named(name: &str, key: Key) -> bool
    ensures { result ≡ is_text name.now (name_of key) }
{
    name == key.name()
}

/// Whether a key is one of the top table.
fn names_top(name: &str) -> bool
    ensures { result ≡ is_top_key name.now }
{
    is_named(name, Key::Terms)
        || is_named(name, Key::Dies)
        || is_named(name, Key::Blocks)
        || is_named(name, Key::Pages)
        || is_named(name, Key::EraseSlots)
        || is_named(name, Key::Logical)
        || is_named(name, Key::Alpha)
        || is_named(name, Key::Task)
}

/// Whether a key is one of a task.
fn names_task(name: &str) -> bool
    ensures { result ≡ is_task_key name.now }
{
    is_named(name, Key::Die)
        || is_named(name, Key::Cap)
        || is_named(name, Key::Period)
        || is_named(name, Key::Deadline)
        || is_named(name, Key::Held)
        || is_named(name, Key::Work)
        || is_named(name, Key::Writes)
        || is_named(name, Key::CollectPeriod)
        || is_named(name, Key::CollectDeadline)
}

/// Whether the top table lists no keys but its own.
fn lists_top_only(table: &Table) -> bool
    ensures { result ≡ list_all (λ k. is_top_key (string_bytes k)) (keys table.now) }
{
    table.keys().all(|key| names_top(key.as_str()))
}

/// Whether a task lists no keys but its own.
fn lists_task_only(table: &Table) -> bool
    ensures { result ≡ list_all (λ k. is_task_key (string_bytes k)) (keys table.now) }
{
    table.keys().all(|key| names_task(key.as_str()))
}

/// Whether the top table has no keys but its own.
fn is_top_only(table: &Table) -> bool
    ensures { result ≡ has_only is_top_key (table_view table.now) }
{
    lists_top_only(table)
}

/// Whether a task has no keys but its own.
fn is_task_only(table: &Table) -> bool
    ensures { result ≡ has_only is_task_key (table_view table.now) }
{
    lists_task_only(table)
}

/// A table has no keys but its own.
fn check_own(only: bool, table: TableName) -> Result<(), TermsRefusal>
    ensures { result ≡ own_keys only table }
{
    if !only {
        return Err(fault(Cause::ExtraKey, Place::In { table }));
    }
    Ok(())
}

/// The top table has no `version`: a plan that has one has no terms.
fn check_version(table: &Table) -> Result<(), TermsRefusal>
    ensures { result ≡ no_version (table_view table.now) }
{
    if has_key(table, Key::Version) {
        return Err(fault(
            Cause::ExtraKey,
            Place::At {
                table: TableName::Top,
                key: Key::Version,
            },
        ));
    }
    Ok(())
}

/// A table has this key.
fn check_key(table: &Table, name: TableName, key: Key) -> Result<(), TermsRefusal>
    ensures { result ≡ key_at name key (table_view table.now) }
{
    if !has_key(table, key) {
        return Err(fault(Cause::MissingKey, Place::At { table: name, key }));
    }
    Ok(())
}

/// The first fault of the top table's keys: one that is not its own comes before one that it lacks.
#[tactic(auto, unfolding(crate::specs::Tables::top_keys_of))]
pub fn check_top_keys(table: &Table) -> Result<(), TermsRefusal>
    ensures { result ≡ top_keys_of (table_view table.now) }
{
    check_version(table)?;
    check_own(is_top_only(table), TableName::Top)?;
    check_key(table, TableName::Top, Key::Terms)?;
    check_key(table, TableName::Top, Key::Dies)?;
    check_key(table, TableName::Top, Key::Blocks)?;
    check_key(table, TableName::Top, Key::Pages)?;
    check_key(table, TableName::Top, Key::EraseSlots)?;
    check_key(table, TableName::Top, Key::Logical)?;
    check_key(table, TableName::Top, Key::Alpha)?;
    check_key(table, TableName::Top, Key::Task)
}

/// The first fault of a task's keys.
#[tactic(auto, unfolding(crate::specs::Tables::task_keys_of))]
pub fn check_task_keys(table: &Table, name: TableName) -> Result<(), TermsRefusal>
    ensures { result ≡ task_keys_of name (table_view table.now) }
{
    check_own(is_task_only(table), name)?;
    check_key(table, name, Key::Die)?;
    check_key(table, name, Key::Cap)?;
    check_key(table, name, Key::Period)?;
    check_key(table, name, Key::Deadline)?;
    check_key(table, name, Key::Held)?;
    check_key(table, name, Key::Work)?;
    check_key(table, name, Key::Writes)?;
    check_key(table, name, Key::CollectPeriod)?;
    check_key(table, name, Key::CollectDeadline)
}

/// A whole number from 0 to 4,294,967,295.
fn number_of(value: &Value) -> Option<u32>
    ensures { result ≡ option_and_then small_of (as_integer (view value.now)) }
{
    match value.as_integer() {
        Some(number) => u32::try_from(number).ok(),
        None => None,
    }
}

/// The number at a key.
pub fn number_in(table: &Table, name: TableName, key: Key) -> Result<u32, TermsRefusal>
    ensures { result ≡ number_at name key (table_view table.now) }
{
    let Some(value) = find(table, key.name()) else {
        return Err(fault(Cause::WrongKind, Place::At { table: name, key }));
    };
    let Some(number) = number_of(value) else {
        return Err(fault(Cause::WrongKind, Place::At { table: name, key }));
    };
    Ok(number)
}
