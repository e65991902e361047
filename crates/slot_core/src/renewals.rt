//! A die goes on with a new log.

ghost use Rattle.std.specs.Prelude.{◌≡◌, ◌≤◌, ◌⊎◌, false, OnOk, OnErr, IfErr, IfSome, IfNone};
ghost use Rattle.job_table.specs.Order.{IsHead, IsNextReleased, NothingReady, NothingWaiting};
ghost use Rattle.die_log.specs.Model.Start.{Start};
ghost use Rattle.die_log.specs.Model.Opening.{IsQuiet};
ghost use Rattle.slot_core.specs.Core.{nothing_reserved};
ghost use Rattle.slot_core.specs.Renewals.{IsNextCarried, MayBeRenewed, RefusesRenewal, renewed_core};

use crate::die_core::DieCore;
use event_log::EventLog;
use flash_die::Nand;
use flash_volume::Volume;
use job_table::JobTable;
use log_start::LogStart;
use slot_types::{JobNo, MAX_SLOT};
use std::alloc::Global;

/// Why a die isn't renewed, in the order in which the causes are looked at.
#[derive(Clone, Copy, PartialEq, Eq, Debug, Drop)]
pub enum RenewalRefusal {
    /// A fault of the device has stopped the die.
    DieStopped,
    /// A job or collection is neither done nor waived. This is its number: of those that are released the one with the
    /// least key, or else the one that is released next.
    NotQuiet { job: u32 },
    /// A block was erased more than 4,293,918,718 times, so its count might not suffice for a life more: the first
    /// such.
    WornOut { block: u32 },
}

/// With more erases a block's count might reach the greatest that a device counts to before the last slot of a life.
const MOST_ERASES: u32 = u32::MAX - 1 - MAX_SLOT;

/// A mark of the start that the caller picks by what stands.
fn start_of<N: Nand>(
    _volume: &Volume<N>,
    _table: &JobTable,
    _events: &EventLog,
    _start: &LogStart,
) -> LogStart
    ghost start: { Start }
    ensures { result ≡ start }
{
    LogStart::at()
}

/// The job or collection that is carried next, if any is left: the head of those that are released at the present slot,
/// or else the one that is released next.
fn next_in(table: &mut JobTable, present: u32) -> Option<JobNo>
    requires running { table.old.ended ≡ false }
    requires forward { table.old.clock ≤ present }
    ensures clock { table.new ≡ record table.old { clock = present } }
    ensures next { IfSome result (λ number.
        IsHead table.new number ⊎ (NothingReady table.new × IsNextReleased table.new number)) }
    ensures none { IfNone result (NothingReady table.new × NothingWaiting table.new) }
{
    match table.head(present) {
        Some(number) => Some(number),
        None => table.next_released(),
    }
}

impl<N: Nand> DieCore<N> {
    /// Starts the log anew at a quiet moment, one at which all that was accepted is done or was waived: `now` is 0
    /// again, and numbers begin at 0. The device, the pages, the accounts and the erases of the blocks stay. It keeps the
    /// memory of the log so far, and reserves again as many slots, arrivals and operations as ever were reserved. It
    /// takes no memory, and looks at no page.
    ///
    /// Refused with the first cause that stands, as [`RenewalRefusal`] lists them; nothing changes then.
    pub fn renew(&mut self) -> Result<(), RenewalRefusal>
        ensures ok { OnOk result (self.new ≡ renewed_core self.old) }
        ensures may { OnOk result (MayBeRenewed self.old) }
        ensures refused { IfErr result (RefusesRenewal self.old) }
        ensures unchanged { OnErr result (self.new ≡ self.old) }
    {
        self.may_renew()?;
        self.start_anew();
        Ok(())
    }

    /// As [`renew`](DieCore::renew), and gives back the memory of the log so far, that which is reserved too: then nothing
    /// is reserved, now or by a later renewal, until it is asked for again.
    pub fn renew_giving_back(&mut self, alloc: Global) -> Result<(), RenewalRefusal>
        ensures ok { OnOk result (self.new ≡ record (renewed_core self.old) {
          reserved = nothing_reserved;
          lasting = nothing_reserved;
        }) }
        ensures may { OnOk result (MayBeRenewed self.old) }
        ensures refused { IfErr result (RefusesRenewal self.old) }
        ensures unchanged { OnErr result (self.new ≡ self.old) }
    {
        self.may_renew()?;
        self.start_small(alloc);
        Ok(())
    }

    /// Whether the die may be renewed, and else why not: what [`renew`](DieCore::renew) would answer now. Nothing that a
    /// caller sees changes; the queue of released jobs is brought up to the present slot.
    pub fn may_renew(&mut self) -> Result<(), RenewalRefusal>
        ensures may { OnOk result (MayBeRenewed self.old) }
        ensures refused { IfErr result (RefusesRenewal self.old) }
        ensures unchanged { self.new ≡ self.old }
    {
        if self.is_stopped() {
            return Err(RenewalRefusal::DieStopped);
        }
        if let Some(job) = self.next_job() {
            return Err(RenewalRefusal::NotQuiet { job: job.0 });
        }
        if let Some(block) = self.volume.first_worn(MOST_ERASES) {
            return Err(RenewalRefusal::WornOut { block });
        }
        Ok(())
    }

    /// The job or collection that is carried next, if any is left.
    fn next_job(&mut self) -> Option<JobNo>
        requires runs { self.old.stopped ≡ false }
        ensures same { self.new ≡ self.old }
        ensures next { IfSome result (IsNextCarried self.old.start.plan self.old.log) }
        ensures quiet { IfNone result (IsQuiet self.old.start self.old.log) }
    {
        next_in(&mut self.table, self.present)
    }

    /// Puts an empty table and an empty log in place of the old ones.
    fn start_small(&mut self, alloc: Global)
        requires may { MayBeRenewed self.old }
        ensures { self.new ≡ record (renewed_core self.old) {
          reserved = nothing_reserved;
          lasting = nothing_reserved;
        } }
    {
        let start = start_of(&self.volume, &self.table, &self.events, &self.start);
        self.table.give_back(alloc);
        self.events = EventLog::new(alloc);
        self.start = start;
        self.present = 0;
        self.reserved = 0;
        self.lasting = 0;
    }

    /// Clears the table and the log, and reserves again what ever was.
    fn start_anew(&mut self)
        requires may { MayBeRenewed self.old }
        ensures { self.new ≡ renewed_core self.old }
    {
        let start = start_of(&self.volume, &self.table, &self.events, &self.start);
        self.table.clear();
        self.events.clear();
        self.start = start;
        self.present = 0;
        self.reserved = self.lasting;
    }
}
