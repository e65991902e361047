//! Which texts are taken for plans with terms.

ghost use Rattle.std.specs.Prelude.{◌≡◌, IfOk, option_map};
ghost use Rattle.slot_types.specs.Refusal.{FailsForMemory};
ghost use Rattle.plan_texts.specs.Tables.{has_member};
ghost use Rattle.toml.specs.Data.{get_member};
ghost use Rattle.toml.specs.View.{table_view, view};
ghost use Rattle.terms_texts.specs.Keys.{name_of};
ghost use Rattle.terms_texts.specs.declared.keys.Key.TheVariants as key;
ghost use Rattle.flashplan_terms_design.specs.Kinds.{is_terms_text};

use slot_types::Refusal;
use std::alloc::Global;
use terms_texts::Key;
use toml::{Table, Value};

/// The most bytes of a plan's text.
const MAX_TEXT: usize = 1_048_576;

/// What a table has at a key.
fn find<'a>(table: &'a Table, name: &str) -> Option<&'a Value>
    ensures { option_map (λ v. view v.now) result ≡ get_member name.now (table_view table.now) }
{
    table.get(name)
}

/// Whether a table has the key `terms`.
fn has_terms_key(table: &Table) -> bool
    ensures { result ≡ has_member (table_view table.now) (name_of key.Terms) }
{
    find(table, Key::Terms.name()).is_some()
}

/// Whether a text is taken for a plan with terms: it is TOML of at most 1,048,576 bytes, and has the key `terms` on top,
/// whatever else it has. The only refusal is NoMemory.
pub fn is_terms_text(alloc: Global, text: &[u8]) -> Result<bool, Refusal>
    ensures kind { IfOk result (λ has_terms. has_terms ≡ is_terms_text text.now) }
    ensures refused { FailsForMemory result }
{
    if text.len() > MAX_TEXT {
        return Ok(false);
    }
    let Ok(text) = std::str::from_utf8(text) else {
        return Ok(false);
    };
    match toml::table_from_str(alloc, text) {
        Ok(table) => Ok(has_terms_key(&table)),
        Err(e) if e.is_memory() => Err(Refusal::NoMemory),
        Err(_) => Ok(false),
    }
}
