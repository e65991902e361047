//! A die.

ghost use Rattle.std.specs.Prelude.{◌≡◌, ◌↔◌, ◌≤◌, ◌⊎◌, ◌+◌, [], false, length, nat_lt, if◌then◌else◌, IsOk, IfOk, IfErr, OnOk, OnErr};
ghost use Rattle.std.specs.Box.{box_value};
ghost use Rattle.slot_types.specs.Refusal.{FailsForMemory};
ghost use Rattle.slot_types.specs.Shapes.{IsShape};
ghost use Rattle.plan_rules.specs.Bound.{MeetsBound};
ghost use Rattle.flash_die.specs.Flash.{IsFresh};
ghost use Rattle.event_log.specs.RecordCounts.{record_count};
ghost use Rattle.die_log.specs.Model.Log.{now};
ghost use Rattle.die_log.specs.Model.Start.{fresh};
ghost use Rattle.slot_core.specs.Core.{nothing_reserved, with_slots, with_arrivals};

use event_log::EventLog;
use flash_die::Nand;
use flash_volume::Volume;
use job_table::JobTable;
use log_start::LogStart;
use plan_rules::bound;
use slot_types::{DiePlan, Refusal};
use std::alloc::Global;
use std::marker::Model;

/// One die: its flash, its jobs and collections, and the log of the calls that it accepted.
///
/// Contracts see where its log starts (with its plan), its device, whether a fault has stopped it, for how many slots,
/// arrivals and operations memory is reserved, for how many it is from the beginning of a log on, and its log.
#[derive(Drop)]
pub struct DieCore<N: Nand> {
    /// The pages and the accounts of free pages, on the device.
    pub(crate) volume: Volume<N>,
    /// The jobs and collections, with what the log says of each.
    pub(crate) table: JobTable,
    /// The log, as what each call did, marked where the worst was done. With the table it stands for the entries that
    /// contracts see.
    pub(crate) events: EventLog,
    /// The present slot.
    pub(crate) present: u32,
    /// For how many slots there is room in the log, in addition to that for jobs and collections. The table knows for
    /// how many of these memory is reserved.
    pub(crate) reserved: u32,
    /// For how many slots there is room from the beginning of a log on, in addition to that for jobs and collections:
    /// for as many as were ever reserved.
    pub(crate) lasting: u32,
    /// Where its log started, which only clauses read.
    pub(crate) start: LogStart,
}

impl<N: Nand> Model for DieCore<N> {
    ghost use Rattle.slot_core.specs.Core.{Core};
    ghost use Rattle.slot_core.specs.TableLog.{log_of, SaysLog};
    ghost use Rattle.slot_core.specs.ReservedSlots.{HasReservedRoom, HasLastingRoom};
    ghost use Rattle.slot_core.specs.MarkedWorst.{MarksWorst};
    ghost use Rattle.slot_core.specs.Device.{flash_of};
    ghost use Rattle.die_log.specs.Model.Start.{over};

    ghost Value = { Core N };

    ghost view = { λ c. record {
      start = over c.volume.accounts.plan c.start;
      device = c.volume.device;
      stopped = c.volume.failed;
      reserved = record {
        slots = c.reserved;
        arrivals = c.table.reserve.arrivals;
        operations = c.table.reserve.operations;
      };
      lasting = record {
        slots = c.lasting;
        arrivals = c.table.lasting.arrivals;
        operations = c.table.lasting.operations;
      };
      log = log_of c.table c.events.notes;
    } };

    ghost invariant = { λ c.
        SaysLog (over c.volume.accounts.plan c.start) c.present c.table c.events.notes c.volume.failed (flash_of N.blocks c.volume)
        × HasReservedRoom c.reserved c.table.reserve.arrivals c.table.jobs c.events.room c.events.waiver_room
        × MarksWorst c.table.jobs c.events.marked
        × HasLastingRoom
        (record { slots = c.reserved; arrivals = c.table.reserve.arrivals; operations = c.table.reserve.operations })
        (record { slots = c.lasting; arrivals = c.table.lasting.arrivals; operations = c.table.lasting.operations })
        c.events.memory c.events.waiver_memory };
}

/// For how many entries there has to be room so that `wanted` slots or arrivals are reserved, if they aren't, with
/// `beside` of the other kind, as many as last.
fn entries_ahead(reserved: u32, wanted: u32, beside: u32) -> usize
    ensures { result ≡ (if nat_lt reserved wanted then wanted + beside else 0) }
{
    if reserved < wanted {
        wanted as usize + beside as usize
    } else {
        0
    }
}

/// For how many waivers there has to be room so that `arrivals` arrivals are reserved, if they aren't: each may be a
/// collection, and a task has one at most that is neither done nor waived.
fn waivers_ahead(table: &JobTable, arrivals: u32) -> usize
    requires few { table.now.tasks ≤ 16 }
    ensures { result
        ≡ (if nat_lt table.now.reserve.arrivals arrivals then table.now.tasks + arrivals
        else 0) }
{
    if table.reserved_arrivals() < arrivals {
        table.tasks() + arrivals as usize
    } else {
        0
    }
}

impl<N: Nand> DieCore<N> {
    /// A die on which nothing was done, at slot 0.
    ///
    /// `BadShape` where the plan's shape is out of its limits or is not the device's; else `BadPlan` where the plan
    /// does not meet its bound; else `NoMemory` where memory is refused. Plan and device are given up then.
    pub fn new(alloc: Global, plan: DiePlan, nand: N) -> Result<DieCore<N>, Refusal>
        requires fresh { IsFresh (N.shape_of nand) (N.blocks nand) (N.failures nand) }
        ensures ok { IfOk result (λ core.
            core ≡ record {
              start = fresh plan;
              device = nand;
              stopped = false;
              reserved = nothing_reserved;
              lasting = nothing_reserved;
              log = [];
            }) }
        ensures bad_shape { (result ≡ Err Refusal.BadShape)
            ↔ ¬ (IsShape plan.shape × (N.shape_of nand ≡ plan.shape)) }
        ensures bad_plan { (result ≡ Err Refusal.BadPlan)
            ↔ (IsShape plan.shape × (N.shape_of nand ≡ plan.shape) × ¬ MeetsBound plan) }
        ensures refused { IfErr result (λ refusal.
            (refusal ≡ Refusal.BadShape) ⊎ (refusal ≡ Refusal.BadPlan)
            ⊎ (refusal ≡ Refusal.NoMemory)) }
    {
        if nand.shape() != plan.shape {
            return Err(Refusal::BadShape);
        }
        bound(&plan)?;
        let table = JobTable::new(alloc, plan.caps.len() as u32)?;
        let start = LogStart::fresh(&plan);
        let volume = Volume::new(alloc, plan, nand)?;
        Ok(DieCore {
            volume,
            table,
            events: EventLog::new(alloc),
            present: 0,
            reserved: 0,
            lasting: 0,
            start,
        })
    }

    /// A die as [`new`](DieCore::new) makes it, in a box, since a die is large to move. It is refused as there;
    /// `NoMemory` also where memory for the box is.
    pub fn boxed(alloc: Global, plan: DiePlan, nand: N) -> Result<Box<DieCore<N>>, Refusal>
        requires fresh { IsFresh (N.shape_of nand) (N.blocks nand) (N.failures nand) }
        ensures ok { IfOk result (λ core. box_value core
            ≡ record {
              start = fresh plan;
              device = nand;
              stopped = false;
              reserved = nothing_reserved;
              lasting = nothing_reserved;
              log = [];
            }) }
        ensures bad_shape { (result ≡ Err Refusal.BadShape)
            ↔ ¬ (IsShape plan.shape × (N.shape_of nand ≡ plan.shape)) }
        ensures bad_plan { (result ≡ Err Refusal.BadPlan)
            ↔ (IsShape plan.shape × (N.shape_of nand ≡ plan.shape) × ¬ MeetsBound plan) }
        ensures refused { IfErr result (λ refusal.
            (refusal ≡ Refusal.BadShape) ⊎ (refusal ≡ Refusal.BadPlan)
            ⊎ (refusal ≡ Refusal.NoMemory)) }
    {
        let core = DieCore::new(alloc, plan, nand)?;
        match Box::new(alloc, core) {
            Ok(boxed) => Ok(boxed),
            Err(_) => Err(Refusal::NoMemory),
        }
    }

    /// Takes the memory for `slots` later slots; what jobs and collections take when they come is apart. These slots,
    /// and those that were reserved before, are never refused with `NoMemory`. Each slot that is answered uses one of
    /// them up, and nothing else does. Each [renewal](DieCore::renew) reserves as many again.
    ///
    /// The only refusal is `NoMemory`, where nothing changes. It never comes where `slots` slots are reserved already.
    pub fn reserve(&mut self, slots: u32) -> Result<(), Refusal>
        ensures ok { OnOk result (self.new ≡ with_slots slots self.old) }
        ensures refused { FailsForMemory result }
        ensures succeeds { slots ≤ self.old.reserved.slots → IsOk result }
        ensures unchanged { OnErr result (self.new ≡ self.old) }
    {
        let entries = entries_ahead(self.reserved, slots, self.table.lasting_arrivals());
        self.events.reserve(entries, 0)?;
        let most = self.reserved.max(slots);
        let lasting = self.lasting.max(slots);
        self.reserved = most;
        self.lasting = lasting;
        Ok(())
    }

    /// Takes the memory for `arrivals` later jobs and collections, with `operations` operations in all: as long as that
    /// suffices, none of them is refused with `NoMemory`, and none takes memory. Each one that is accepted uses one of
    /// them up, with as many operations as it has, and nothing else does. Each [renewal](DieCore::renew) reserves as
    /// many again. Slots are [reserved](DieCore::reserve) apart.
    ///
    /// The only refusal is `NoMemory`, where nothing changes. It never comes where as many of both are reserved
    /// already.
    pub fn reserve_arrivals(&mut self, arrivals: u32, operations: u32) -> Result<(), Refusal>
        ensures ok { OnOk result (self.new ≡ with_arrivals arrivals operations self.old) }
        ensures refused { FailsForMemory result }
        ensures succeeds { arrivals ≤ self.old.reserved.arrivals
            → operations ≤ self.old.reserved.operations → IsOk result }
        ensures unchanged { OnErr result (self.new ≡ self.old) }
    {
        let entries = entries_ahead(self.table.reserved_arrivals(), arrivals, self.lasting);
        let waivers = waivers_ahead(&self.table, arrivals);
        self.events.reserve(entries, waivers)?;
        self.table.reserve(arrivals, operations)
    }

    /// For how many slots memory is reserved.
    pub fn reserved(&self) -> u32
        ensures { result ≡ self.now.reserved.slots }
    {
        self.reserved
    }

    /// For how many jobs and collections that come later memory is reserved.
    pub fn reserved_arrivals(&self) -> u32
        ensures { result ≡ self.now.reserved.arrivals }
    {
        self.table.reserved_arrivals()
    }

    /// For how many operations of these memory is reserved, in all.
    pub fn reserved_operations(&self) -> u64
        ensures { result ≡ self.now.reserved.operations }
    {
        self.table.reserved_operations()
    }

    /// What the die is planned for.
    pub fn plan(&self) -> &DiePlan
        ensures { result.now ≡ self.now.start.plan }
    {
        self.volume.plan()
    }

    /// The present slot: how many slots were carried out.
    pub fn now(&self) -> u32
        ensures { result ≡ now self.now.log }
    {
        self.present
    }

    /// How many entries the log has.
    pub fn len(&self) -> u64
        ensures { result ≡ length self.now.log }
    {
        self.events.len() as u64
    }

    /// How many records the log takes: how many maximal runs of alike entries it has, one by itself being one.
    pub fn records(&self) -> u64
        ensures { result ≡ record_count self.now.log }
    {
        self.events.records() as u64
    }

    /// Whether the device has failed, which stops the die.
    pub fn is_stopped(&self) -> bool
        ensures { result ≡ self.now.stopped }
    {
        self.volume.failed()
    }
}
