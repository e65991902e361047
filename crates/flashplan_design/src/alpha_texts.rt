//! What another alpha comes to, in lines.

ghost use Rattle.std.specs.Prelude.{◌≡◌, ◌++◌, OnOk, codes};
ghost use Rattle.flashplan_design.specs.Findings.{taken_text};
ghost use Rattle.flashplan_design.specs.Alphas.{caps_text, does_text, found_text, logical_text, numbers_text, periods_text, row_line, rows_text, slow_text, times_text};

use crate::alphas::AlphaRow;
use crate::findings::{Taken, Timed};
use flashplan_slot_times::Slots;
use slot_types::{DiePlan, TaskTimes, Times};
use std::io;
use std::io::Write;

/// Adds numbers.
fn put_numbers(text: &mut Vec<u8>, numbers: &[u32]) -> io::Result<()>
    ensures { OnOk result (text.new.items ≡ text.old.items ++ numbers_text numbers.now) }
{
    for number in numbers {
        write!(text, " {number}")?;
    }
    Ok(())
}

/// Adds the collect periods of tasks.
fn put_periods(text: &mut Vec<u8>, tasks: &[TaskTimes], slot_us: Option<u32>) -> io::Result<()>
    ensures { OnOk result (text.new.items ≡ text.old.items ++ periods_text slot_us tasks.now) }
{
    for task in tasks {
        let count = u64::from(task.collect_period);
        let period = Slots { count, slot_us };
        write!(text, " {period}")?;
    }
    Ok(())
}

/// Adds those of times, if there are any.
fn put_times(text: &mut Vec<u8>, times: &Option<Times>, slot_us: Option<u32>) -> io::Result<()>
    ensures { OnOk result (text.new.items ≡ text.old.items ++ times_text slot_us times.now) }
{
    match times {
        Some(times) => put_periods(text, times.tasks.as_slice(), slot_us),
        None => Ok(()),
    }
}

/// Adds an alpha, and the caps that go with it.
fn put_caps(text: &mut Vec<u8>, plan: &DiePlan) -> io::Result<()>
    ensures { OnOk result (text.new.items ≡ text.old.items ++ caps_text plan.now) }
{
    let alpha = plan.alpha;
    write!(text, "with alpha {alpha}, caps")?;
    put_numbers(text, plan.caps.as_slice())
}

/// Adds the collect periods that go with it.
fn put_slow(text: &mut Vec<u8>, plan: &DiePlan, slot_us: Option<u32>) -> io::Result<()>
    ensures { OnOk result (text.new.items ≡ text.old.items ++ slow_text slot_us plan.now) }
{
    write!(text, " and collect_periods")?;
    put_times(text, &plan.times, slot_us)
}

/// Adds what is taken of a die.
fn put_taken(text: &mut Vec<u8>, of: Taken, slot_us: Option<u32>) -> io::Result<()>
    ensures { OnOk result (text.new.items ≡ text.old.items ++ (codes ", " ++ taken_text slot_us of)) }
{
    let taken = Timed { of, slot_us };
    write!(text, ", {taken}")
}

/// Adds how many logical pages the bound of a die allows.
fn put_logical(text: &mut Vec<u8>, logical: u32) -> io::Result<()>
    ensures { OnOk result (text.new.items ≡ text.old.items ++ logical_text logical) }
{
    write!(text, ", and the greatest logical is {logical}")
}

/// Adds whether a die would do so, and ends the line.
fn put_does(text: &mut Vec<u8>, does: bool) -> io::Result<()>
    ensures { OnOk result (text.new.items ≡ text.old.items ++ does_text does) }
{
    if does {
        writeln!(text, ": it would do.")
    } else {
        writeln!(text, ", which is less than it has.")
    }
}

/// Adds how many logical pages the bound of a die allows, and whether it would do with its own; and ends the line.
fn put_room(text: &mut Vec<u8>, row: &AlphaRow) -> io::Result<()>
    ensures { OnOk result (text.new.items
        ≡ text.old.items ++ (logical_text row.now.logical ++ does_text row.now.does)) }
{
    put_logical(text, row.logical)?;
    put_does(text, row.does)
}

/// Adds what an alpha comes to.
fn put_found(text: &mut Vec<u8>, row: &AlphaRow, slot_us: Option<u32>) -> io::Result<()>
    ensures { OnOk result (text.new.items ≡ text.old.items ++ found_text slot_us row.now) }
{
    put_taken(text, row.taken, slot_us)?;
    put_room(text, row)
}

/// Adds what goes with an alpha.
fn put_along(text: &mut Vec<u8>, plan: &DiePlan, slot_us: Option<u32>) -> io::Result<()>
    ensures { OnOk result (text.new.items
        ≡ text.old.items ++ (caps_text plan.now ++ slow_text slot_us plan.now)) }
{
    put_caps(text, plan)?;
    put_slow(text, plan, slot_us)
}

/// Adds a row, a line.
fn put_row(text: &mut Vec<u8>, row: &AlphaRow, slot_us: Option<u32>) -> io::Result<()>
    ensures { OnOk result (text.new.items ≡ text.old.items ++ row_line slot_us row.now) }
{
    let die = row.die;
    write!(text, "die {die}: ")?;
    put_along(text, &row.plan, slot_us)?;
    put_found(text, row, slot_us)
}

/// Adds rows to a text, a line each.
pub fn put_rows(text: &mut Vec<u8>, rows: &[AlphaRow], slot_us: Option<u32>) -> io::Result<()>
    ensures { OnOk result (text.new.items ≡ text.old.items ++ rows_text slot_us rows.now) }
{
    for row in rows {
        put_row(text, row, slot_us)?;
    }
    Ok(())
}
