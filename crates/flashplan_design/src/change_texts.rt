//! Changes of one number, in lines.

ghost use Rattle.std.specs.Prelude.{◌≡◌, ◌++◌, OnOk, codes};
ghost use Rattle.flashplan_design.specs.Changes.{change_line, changes_text, key_text, of_text, step_text, unit_of};

use crate::changes::Change;
use crate::numbers::Number;
use crate::subjects::TaskName;
use flashplan_slot_times::Slots;
use std::io;
use std::io::Write;

/// The key of a number.
fn key_of(which: Number) -> &'static str
    ensures { result.now ≡ key_text which }
{
    match which {
        Number::Blocks => "blocks",
        Number::Logical => "logical",
        Number::Alpha => "alpha",
        Number::Common => "common",
        Number::Cap(_) => "cap",
        Number::Period(_) => "period",
        Number::CollectPeriod(_) => "collect_period",
        Number::Work(_) => "work",
        Number::Writes(_) => "writes",
    }
}

/// The length of a slot, where a number is one of slots.
fn unit_of(slot_us: Option<u32>, which: Number) -> Option<u32>
    ensures { result ≡ unit_of slot_us which }
{
    match which {
        Number::Common | Number::Period(_) | Number::CollectPeriod(_) => slot_us,
        Number::Blocks
        | Number::Logical
        | Number::Alpha
        | Number::Cap(_)
        | Number::Work(_)
        | Number::Writes(_) => None,
    }
}

/// Adds whose number is changed.
fn put_of(text: &mut Vec<u8>, of: Option<TaskName>) -> io::Result<()>
    ensures { OnOk result (text.new.items ≡ text.old.items ++ (codes "change: " ++ of_text of ++ codes ": ")) }
{
    match of {
        None => write!(text, "change: plan: "),
        Some(name) => write!(text, "change: {name}: "),
    }
}

/// Adds from what to what it is changed.
fn put_step(text: &mut Vec<u8>, change: Change, slot_us: Option<u32>) -> io::Result<()>
    ensures { OnOk result (text.new.items ≡ text.old.items ++ step_text slot_us change) }
{
    let key = key_of(change.which);
    let slot_us = unit_of(slot_us, change.which);
    let from = Slots {
        count: u64::from(change.from),
        slot_us,
    };
    let to = Slots {
        count: u64::from(change.to),
        slot_us,
    };
    writeln!(text, "{key} from {from} to {to}.")
}

/// Adds a change, a line.
fn put_change(text: &mut Vec<u8>, change: Change, slot_us: Option<u32>) -> io::Result<()>
    ensures { OnOk result (text.new.items ≡ text.old.items ++ change_line slot_us change) }
{
    put_of(text, change.of)?;
    put_step(text, change, slot_us)
}

/// Adds changes to a text, a line each.
pub fn put_ranked(text: &mut Vec<u8>, changes: &[Change], slot_us: Option<u32>) -> io::Result<()>
    ensures { OnOk result (text.new.items ≡ text.old.items ++ changes_text slot_us changes.now) }
{
    for change in changes {
        put_change(text, *change, slot_us)?;
    }
    Ok(())
}
