//! The dies of a checkpoint, gathered record by record.

ghost use Rattle.std.specs.Prelude.{◌≡◌, ◌∷◌, ◌++◌, [], OnOk};
ghost use Rattle.csv.specs.Records.{fields_of};
ghost use Rattle.checkpoint_texts.specs.CheckpointOf.{whole_at};
ghost use Rattle.checkpoint_texts.specs.Gathering.{between, die_at_hand, may_end, with_item, with_record};
ghost use Rattle.checkpoint_texts.specs.Readings.{Shows};
ghost use Rattle.slot_types.specs.Refusal.{FailsForMemory};

use crate::fault::{RecordFault, TextFault};
use crate::item_reading::item_in;
use crate::items::Item;
use crate::saved::{SavedDie, SavedPage, SavedStore};
use csv::ByteRecord;
use die_checkpoint::BlockCounts;
use slot_types::{Items, MAX_DIES, Refusal};
use std::alloc::Global;
use std::mem;

/// The dies so far: those that are done with, and what came of the next.
#[derive(Drop)]
pub struct Gathered {
    pub done: SavedStore,
    pub pages: Items<SavedPage>,
    pub blocks: Items<BlockCounts>,
    pub balances: Items<u32>,
}

/// No die yet.
pub fn no_dies(alloc: Global) -> Gathered
    ensures { result ≡ between [] }
{
    Gathered {
        done: SavedStore::new(alloc),
        pages: Items::new(alloc),
        blocks: Items::new(alloc),
        balances: Items::new(alloc),
    }
}

/// Whether the text may end here.
fn may_end(gathered: &Gathered) -> bool
    ensures { result ≡ may_end gathered.now }
{
    !gathered.done.is_empty()
        && gathered.pages.is_empty()
        && gathered.blocks.is_empty()
        && gathered.balances.is_empty()
}

/// All dies, where the text ends and the next record would have this number.
pub fn whole(gathered: Gathered, line: u32) -> Result<SavedStore, TextFault>
    ensures { result ≡ whole_at line gathered }
{
    if may_end(&gathered) {
        Ok(gathered.done)
    } else {
        Err(TextFault::Broken {
            line,
            field: 1,
            fault: RecordFault::Order,
        })
    }
}

/// Ends the die at hand.
fn end_die(alloc: Global, gathered: &mut Gathered, spare: u32) -> Result<(), Refusal>
    ensures ok { OnOk result (gathered.new
        ≡ between (gathered.old.done ++ die_at_hand gathered.old spare ∷ [])) }
    ensures refused { FailsForMemory result }
{
    let die = SavedDie {
        pages: mem::replace(&mut gathered.pages, Items::new(alloc)),
        blocks: mem::replace(&mut gathered.blocks, Items::new(alloc)),
        balances: mem::replace(&mut gathered.balances, Items::new(alloc)),
        spare,
    };
    gathered.done.push(die)
}

/// Gathers one more item, which the record of this number says.
fn add(alloc: Global, gathered: &mut Gathered, item: Item, line: u32) -> Result<(), TextFault>
    ensures { Shows (λ _. gathered.new) result (with_item line gathered.old item) }
{
    let out_of_order = TextFault::Broken {
        line,
        field: 1,
        fault: RecordFault::Order,
    };
    match item {
        Item::Page(page) => {
            if !gathered.blocks.is_empty() || !gathered.balances.is_empty() {
                return Err(out_of_order);
            }
            gathered.pages.push(page)?;
        }
        Item::Block(block) => {
            if !gathered.balances.is_empty() {
                return Err(out_of_order);
            }
            gathered.blocks.push(block)?;
        }
        Item::Task(balance) => gathered.balances.push(balance)?,
        Item::Die { number, spare } => {
            if number as usize != gathered.done.len() || number >= MAX_DIES {
                return Err(TextFault::Broken {
                    line,
                    field: 2,
                    fault: RecordFault::Die,
                });
            }
            end_die(alloc, gathered, spare)?;
        }
    }
    Ok(())
}

/// Gathers one more record, which has this number.
pub fn gather(
    alloc: Global,
    gathered: &mut Gathered,
    fields: &ByteRecord,
    line: u32,
) -> Result<(), TextFault>
    ensures { Shows (λ _.
        gathered.new) result (with_record line gathered.old (fields_of fields.now)) }
{
    let item = item_in(line, fields)?;
    add(alloc, gathered, item, line)
}
