//! The rows of a report, gathered by die.

ghost use Rattle.std.specs.Prelude.{◌≡◌, ◌≢◌, ◌≤◌, ◌∷◌, [], map, Some, None, IfOk, OnOk, if◌then◌else◌, option_map};
ghost use Rattle.csv.specs.Records.{fields_of};
ghost use Rattle.slot_types.specs.Refusal.{FailsForMemory};
ghost use Rattle.report_texts.specs.KeptDies.{kept_row, kept_so_far};
ghost use Rattle.report_texts.specs.ReportOf.{Gathered, all_dies, comes_next, gathered_with, no_rows, with_last, with_row};
ghost use Rattle.report_texts.specs.declared.report_rows.DieRow.{DieRow};

use crate::kept_dies::KeptDie;
use crate::report_rows::DieRow;
use csv::ByteRecord;
use slot_types::{Items, Refusal};
use std::alloc::Global;
use std::mem;

/// What is kept of the dies so far: of those that are done with, and of the last, which has `rows` rows.
#[derive(Drop)]
pub struct KeptSoFar<K> {
    pub done: Items<K>,
    pub die: u32,
    pub rows: u32,
    pub last: K,
}

/// No row yet.
pub fn no_rows<K: KeptDie>(alloc: Global) -> KeptSoFar<K>
    ensures { result ≡ kept_so_far K.kept_of no_rows }
{
    KeptSoFar {
        done: Items::new(alloc),
        die: 0,
        rows: 0,
        last: K::without_row(alloc, 0),
    }
}

/// Whether a row may come next.
fn follows<K>(kept: &KeptSoFar<K>, next: &DieRow) -> bool
    ensures { result ≡ comes_next kept.now.die kept.now.rows next.now }
{
    if next.die == kept.die {
        next.row.job.0 == kept.rows
    } else {
        kept.die < next.die && next.row.job.0 == 0
    }
}

/// Puts the last die to those that are done with, if it has rows.
fn put_last<K: Drop>(done: &mut Items<K>, rows: u32, last: K) -> Result<(), Refusal>
    ensures ok { OnOk result (done.new ≡ with_last done.old rows last) }
    ensures refused { FailsForMemory result }
{
    if rows != 0 {
        done.push(last)?;
    }
    Ok(())
}

/// All dies so far.
pub fn dies_in<K: KeptDie>(kept: KeptSoFar<K>) -> Result<Items<K>, Refusal>
    ensures ok { IfOk result (λ dies. dies ≡ with_last kept.done kept.rows kept.last) }
    ensures refused { FailsForMemory result }
{
    let KeptSoFar {
        mut done,
        rows,
        last,
        ..
    } = kept;
    put_last(&mut done, rows, last)?;
    Ok(done)
}

/// Begins a later die with its first row.
fn begin<K: KeptDie>(alloc: Global, kept: &mut KeptSoFar<K>, next: DieRow) -> Result<(), Refusal>
    requires { next.die ≢ kept.old.die }
    ensures ok { (g : Gathered) (x : DieRow) → kept.old ≡ kept_so_far K.kept_of g →
        next ≡ kept_row K.kept_reads x →
        OnOk result (kept.new ≡ kept_so_far K.kept_of (with_row g x)) }
    ensures refused { FailsForMemory result }
{
    let mut last = K::without_row(alloc, next.die);
    last.push(next.row)?;
    let last = mem::replace(&mut kept.last, last);
    put_last(&mut kept.done, kept.rows, last)?;
    kept.die = next.die;
    kept.rows = 1;
    Ok(())
}

/// Gathers one more row.
fn add<K: KeptDie>(alloc: Global, kept: &mut KeptSoFar<K>, next: DieRow) -> Result<(), Refusal>
    requires { kept.old.rows ≤ 65536 }
    ensures ok { (g : Gathered) (x : DieRow) → kept.old ≡ kept_so_far K.kept_of g →
        next ≡ kept_row K.kept_reads x →
        OnOk result (kept.new ≡ kept_so_far K.kept_of (with_row g x)) }
    ensures refused { FailsForMemory result }
{
    if next.die != kept.die {
        return begin(alloc, kept, next);
    }
    kept.last.push(next.row)?;
    kept.rows += 1;
    Ok(())
}

/// Gathers one more record, if it is a row that may come next; says whether it is.
pub fn gather<K: KeptDie>(
    alloc: Global,
    kept: &mut KeptSoFar<K>,
    fields: &ByteRecord,
) -> Result<bool, Refusal>
    requires { kept.old.rows ≤ 65536 }
    ensures row { IfOk result (λ is_row.
        (g : Gathered) → kept.old ≡ kept_so_far K.kept_of g →
        (if is_row then Some kept.new else None)
        ≡ option_map (kept_so_far K.kept_of) (gathered_with g (fields_of fields.now))) }
    ensures refused { FailsForMemory result }
{
    let Some(next) = K::row_in(alloc, fields)? else {
        return Ok(false);
    };
    if !follows(kept, &next) {
        return Ok(false);
    }
    add(alloc, kept, next)?;
    Ok(true)
}
