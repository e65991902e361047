//! Why a plan with terms is refused, in sentences.

ghost use Rattle.std.specs.Prelude.{◌≡◌, ◌++◌, OnOk};
ghost use Rattle.terms_texts.specs.Keys.{name_of};
ghost use Rattle.flashplan_terms_design.specs.FaultTexts.{blocks_text, bound_text, demand_text, lack_text, limit_text, logical_text};
ghost use Rattle.flashplan_terms_design.specs.FaultTexts.{overfull_text, overload_text, place_text, range_text, shape_text};
ghost use Rattle.flashplan_terms_design.specs.FaultTexts.{stray_text, supply_text, table_text, terms_text, text_fault, wrong_text};

use crate::numbers::{put_die, put_task};
use crate::timed::AskedSlots;
use demand_rules::{DemandFault, Lack, LimitFault, SupplyFault, TermsFault, TermsNumber};
use flashplan_slot_times::Slots;
use slot_types::Cause;
use std::io;
use std::io::Write;
use terms_texts::{Place, TableName};

/// Adds a table, as a sentence begins with it.
fn put_table(text: &mut Vec<u8>, table: TableName) -> io::Result<()>
    ensures { OnOk result (text.new.items ≡ text.old.items ++ table_text table) }
{
    match table {
        TableName::Top => write!(text, "plan: "),
        TableName::Task { task } => {
            let nth = task as u128 + 1;
            write!(text, "[[task]] {nth}: ")
        }
    }
}

/// Adds where the fault of a text lies.
fn put_place(text: &mut Vec<u8>, place: Place) -> io::Result<()>
    ensures { OnOk result (text.new.items ≡ text.old.items ++ place_text place) }
{
    match place {
        Place::Whole => write!(text, "plan: the text"),
        Place::In { table } => {
            put_table(text, table)?;
            write!(text, "a key")
        }
        Place::At { table, key } => {
            put_table(text, table)?;
            let name = key.name();
            write!(text, "{name}")
        }
    }
}

/// What is wrong there.
fn wrong(cause: Cause) -> &'static str
    ensures { result.now ≡ wrong_text cause }
{
    match cause {
        Cause::TooLong => " has more than 1048576 bytes",
        Cause::NotToml => " isn't TOML, or not UTF-8",
        Cause::ExtraKey => {
            " is none that a plan with terms has there: its keys are terms, dies, blocks, pages, erase_slots, logical, alpha and task; in each [[task]] die, cap, period, deadline, held, work, writes, collect_period and collect_deadline"
        }
        Cause::MissingKey => " is missing",
        Cause::WrongKind => {
            " has a value of another kind: task is an array of tables, the others are whole numbers from 0 to 4294967295"
        }
        Cause::BadVersion => " has to be 1",
        _ => " can't be read",
    }
}

/// Adds the fault of a plan's text.
pub fn put_text_fault(text: &mut Vec<u8>, cause: Cause, place: Place) -> io::Result<()>
    ensures { OnOk result (text.new.items ≡ text.old.items ++ text_fault cause place) }
{
    put_place(text, place)?;
    let wrong = wrong(cause);
    writeln!(text, "{wrong}.")
}

/// Adds the limits of the dies' number and shape.
pub fn put_shape(text: &mut Vec<u8>) -> io::Result<()>
    ensures { OnOk result (text.new.items ≡ text.old.items ++ shape_text) }
{
    writeln!(
        text,
        "plan: dies has to be from 1 to 8, blocks from 2 to 1024, pages from 2 to 256, erase_slots from 1 to 64."
    )
}

/// Adds that a task, by its place in the text, names a die that isn't there.
pub fn put_stray(text: &mut Vec<u8>, task: usize) -> io::Result<()>
    ensures { OnOk result (text.new.items ≡ text.old.items ++ stray_text task) }
{
    let nth = task as u128 + 1;
    writeln!(text, "[[task]] {nth}: it names a die that isn't there.")
}

/// Adds whether a die would meet its bound with another number of logical pages.
fn put_logical(text: &mut Vec<u8>, logical: Option<u32>) -> io::Result<()>
    ensures { OnOk result (text.new.items ≡ text.old.items ++ logical_text logical) }
{
    match logical {
        None => write!(text, "with no other logical it would"),
        Some(most) => write!(
            text,
            "with other logical it would, the greatest being {most}"
        ),
    }
}

/// Adds whether it would with another number of blocks.
fn put_blocks(text: &mut Vec<u8>, blocks: Option<u32>) -> io::Result<()>
    ensures { OnOk result (text.new.items ≡ text.old.items ++ blocks_text blocks) }
{
    match blocks {
        None => write!(text, "; with no other blocks it would"),
        Some(least) => write!(
            text,
            "; with other blocks it would, the least being {least}"
        ),
    }
}

/// Adds that a die doesn't meet its bound, and what would do.
pub fn put_bound(
    text: &mut Vec<u8>,
    die: usize,
    logical: Option<u32>,
    blocks: Option<u32>,
) -> io::Result<()>
    ensures { OnOk result (text.new.items ≡ text.old.items ++ bound_text die logical blocks) }
{
    put_die(text, die)?;
    write!(
        text,
        "it has to have 1 to 16 tasks, an alpha of 1 to pages, caps and logical of at least 1, and to meet its bound; "
    )?;
    put_logical(text, logical)?;
    put_blocks(text, blocks)?;
    writeln!(text, ".")
}

/// The limits of a number of a task's terms.
fn range(number: TermsNumber) -> &'static str
    ensures { result.now ≡ range_text number }
{
    match number {
        TermsNumber::Period => "period has to be from 1 to 4294967295",
        TermsNumber::Deadline => "deadline has to be at least 1",
        TermsNumber::Held => "held has to be from deadline to 1048576",
        TermsNumber::Work => "work has to be from 1 to 1048576",
        TermsNumber::Writes => "writes has to be at most work",
        TermsNumber::CollectPeriod => "collect_period has to be from 1 to 1048576",
        TermsNumber::CollectDeadline => "collect_deadline has to be from 1 to collect_period",
    }
}

/// Adds a number that is out of its limits.
fn put_limit(text: &mut Vec<u8>, die: usize, fault: LimitFault) -> io::Result<()>
    ensures { OnOk result (text.new.items ≡ text.old.items ++ limit_text die fault) }
{
    match fault {
        LimitFault::Tasks { have } => {
            put_die(text, die)?;
            writeln!(
                text,
                "{have} tasks have terms, and it has another number of tasks."
            )
        }
        LimitFault::Number { task, number } => {
            put_task(text, die, task)?;
            let range = range(number);
            writeln!(text, "{range}.")
        }
    }
}

/// Adds a load above 1.
fn put_overload(text: &mut Vec<u8>, load: u64, missing: u64) -> io::Result<()>
    ensures { OnOk result (text.new.items ≡ text.old.items ++ overload_text load missing) }
{
    writeln!(
        text,
        "in the long run {load} of each 1000000 slots are asked for: {missing} missing."
    )
}

/// Adds an interval that is overfull.
fn put_overfull(text: &mut Vec<u8>, slots: u32, excess: u64, slot_us: Option<u32>) -> io::Result<()>
    ensures { OnOk result (text.new.items ≡ text.old.items ++ overfull_text slot_us slots excess) }
{
    let asked = AskedSlots {
        slots,
        excess,
        slot_us,
    };
    let slots = Slots {
        count: u64::from(slots),
        slot_us,
    };
    let missing = Slots {
        count: excess,
        slot_us,
    };
    writeln!(
        text,
        "an interval of {slots} slots may be asked for {asked}: {missing} missing; no shorter one is overfull."
    )
}

/// Adds why a die doesn't pass the demand test. Of a load of at most 1 nothing is missing.
fn put_demand(
    text: &mut Vec<u8>,
    die: usize,
    fault: DemandFault,
    slot_us: Option<u32>,
) -> io::Result<()>
    ensures { OnOk result (text.new.items ≡ text.old.items ++ demand_text slot_us die fault) }
{
    match fault {
        DemandFault::Limits(fault) => put_limit(text, die, fault),
        DemandFault::Load(load) => {
            put_die(text, die)?;
            put_overload(text, load, load.saturating_sub(1_000_000))
        }
        DemandFault::Overfull { slots, excess } => {
            put_die(text, die)?;
            put_overfull(text, slots, excess, slot_us)
        }
    }
}

/// Adds what a task lacks, and what would do.
fn put_lack(text: &mut Vec<u8>, lack: Lack, slot_us: Option<u32>) -> io::Result<()>
    ensures { OnOk result (text.new.items ≡ text.old.items ++ lack_text slot_us lack) }
{
    match lack {
        Lack::CollectPeriod { most } => {
            let most = Slots {
                count: u64::from(most),
                slot_us,
            };
            write!(
                text,
                "its collections give it less than its jobs write; the greatest collect_period that would do is {most}"
            )
        }
        Lack::Cap { least } => write!(
            text,
            "its cap is too small; the least that would do is {least}"
        ),
    }
}

/// Adds why a die doesn't pass the supply test.
fn put_supply(
    text: &mut Vec<u8>,
    die: usize,
    fault: SupplyFault,
    slot_us: Option<u32>,
) -> io::Result<()>
    ensures { OnOk result (text.new.items ≡ text.old.items ++ supply_text slot_us die fault) }
{
    put_task(text, die, fault.task)?;
    put_lack(text, fault.lack, slot_us)?;
    writeln!(text, ".")
}

/// Adds why a die doesn't pass its tests.
pub fn put_terms(
    text: &mut Vec<u8>,
    die: usize,
    fault: TermsFault,
    slot_us: Option<u32>,
) -> io::Result<()>
    ensures { OnOk result (text.new.items ≡ text.old.items ++ terms_text slot_us die fault) }
{
    match fault {
        TermsFault::Demand(fault) => put_demand(text, die, fault, slot_us),
        TermsFault::Supply(fault) => put_supply(text, die, fault, slot_us),
    }
}
