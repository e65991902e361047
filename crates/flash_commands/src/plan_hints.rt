//! How many dies and tasks a plan has, where an option names one that it hasn't.

use crate::files::path_of;
use crate::hints::Texts;
use crate::values::shown_name;
use plan_texts::{plan_text, read_plan};
use slot_types::MAX_DIES;
use std::alloc::Global;
use std::fs;
use std::io::Write;
use std::rt::Files;
use terms_texts::terms_numbers;
use text_base::FlaggedReader;

/// The text of a plan's file; none where it isn't there any more as it was read, as a pipe.
fn text_in<R: Files>(files: &R, alloc: Global, name: &str) -> Option<Vec<u8>> {
    let path = path_of(name);
    if !fs::metadata(files, path).ok()?.is_file() {
        return None;
    }
    let file = fs::open(files, path).ok()?;
    plan_text(alloc, &mut FlaggedReader::new(file)).ok()
}

/// How many tasks each die of a plan without terms has.
fn tasks_without_terms(alloc: Global, text: &[u8]) -> Option<Vec<usize>> {
    let store = read_plan(alloc, text).ok()?;
    let mut tasks = Vec::new(alloc);
    for plan in store.as_slice() {
        tasks.push(plan.caps.len()).ok()?;
    }
    Some(tasks)
}

/// How many tasks each die of a plan with terms has, whether they pass their tests or not.
fn tasks_with_terms(alloc: Global, text: &[u8]) -> Option<Vec<usize>> {
    let numbers = terms_numbers(alloc, text).ok()?;
    let named = numbers.tasks.as_slice();
    let mut tasks = Vec::new(alloc);
    for die in 0..numbers.top.dies.min(MAX_DIES) {
        let own = named.iter().filter(|task| task.die == die).count();
        tasks.push(own).ok()?;
    }
    Some(tasks)
}

/// How many tasks each die of a plan's file has.
fn tasks_by_die<R: Files>(files: &R, alloc: Global, name: &str) -> Option<Vec<usize>> {
    let text = text_in(files, alloc, name)?;
    match tasks_without_terms(alloc, &text) {
        Some(tasks) => Some(tasks),
        None => tasks_with_terms(alloc, &text),
    }
}

/// How many dies a plan has.
pub(crate) fn dies_in<R: Files>(files: &R, alloc: Global, name: &str) -> Option<usize> {
    Some(tasks_by_die(files, alloc, name)?.len())
}

/// How many tasks a die of a plan has.
fn tasks_in<R: Files>(files: &R, alloc: Global, name: &str, die: u32) -> Option<usize> {
    tasks_by_die(files, alloc, name)?.get(die as usize).copied()
}

/// Tells how many there are of a kind, as of `die`, and which one an option names. A writer that fails is passed over.
fn tell_count<W: Write>(err: &mut W, named: Option<(&str, u32)>, kind: &str, count: Option<usize>) {
    if let Some((option, value)) = named {
        let _ = write!(err, "{option} is {value}; ");
    }
    let _ = match count {
        Some(1) => writeln!(err, "there is {kind} 0 alone"),
        Some(count) => writeln!(err, "there are {count} {kind}s, numbered from 0"),
        None => writeln!(err, "{kind}s are numbered from 0"),
    };
}

/// Tells how many dies a plan has. A writer that fails is passed over.
pub(crate) fn report_dies<R: Files, W: Write>(
    files: &R,
    alloc: Global,
    err: &mut W,
    texts: Texts<'_>,
) {
    let Some(plan) = texts.plan else {
        return;
    };
    let _ = write!(err, "{}: ", shown_name(plan));
    tell_count(err, texts.die, "die", dies_in(files, alloc, plan));
}

/// Tells how many tasks a die of a plan has. A writer that fails is passed over.
pub(crate) fn report_tasks<R: Files, W: Write>(
    files: &R,
    alloc: Global,
    err: &mut W,
    texts: Texts<'_>,
) {
    let Some(plan) = texts.plan else {
        return;
    };
    let die = match texts.die {
        Some((_, die)) => die,
        None => 0,
    };
    let _ = write!(err, "{}, die {die}: ", shown_name(plan));
    tell_count(err, texts.task, "task", tasks_in(files, alloc, plan, die));
}
