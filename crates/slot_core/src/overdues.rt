//! Work that is overdue.

ghost use Rattle.std.specs.Prelude.{◌≡◌, true, false, None};
ghost use Rattle.slot_core.specs.Overdues.{overdue_of, overdue_in};

use crate::die_core::DieCore;
use flash_die::Nand;
use job_table::JobTable;
use slot_types::JobNo;

/// A job or collection that is released, neither done nor waived, and due at the present slot at the latest.
#[derive(Clone, Copy, PartialEq, Eq, Debug, Drop)]
pub struct Overdue {
    pub job: JobNo,
    /// Its deadline.
    pub due: u32,
    /// By how many slots it will be late at least, that is, if the present slot is its last one.
    pub late_by: u64,
}

/// A job or collection that the table has, if it is due by the present slot.
fn overdue_in(table: &JobTable, number: JobNo, present: u32) -> Option<Overdue>
    ensures { result ≡ overdue_in table.now number present }
{
    let due = match table.job(number) {
        Some(job) => job.due(),
        None => return None,
    };
    if due > present {
        return None;
    }
    Some(Overdue {
        job: number,
        due,
        late_by: present as u64 + 1 - due as u64,
    })
}

impl<N: Nand> DieCore<N> {
    /// Of the jobs and collections that are released, neither done nor waived, and due at the present slot at the
    /// latest, the one with the earliest deadline, of equal ones the one with the smallest number; or none, where
    /// nothing is overdue. A die that a fault has stopped answers none.
    ///
    /// The log's law of waiting work says why it waits. Nothing that a caller sees changes; the queue of released jobs
    /// is brought up to the present slot, of which the first is looked at.
    pub fn overdue(&mut self) -> Option<Overdue>
        ensures overdue { self.old.stopped ≡ false
            → result ≡ overdue_of self.old.start.plan self.old.log }
        ensures stopped { self.old.stopped ≡ true → result ≡ None }
        ensures unchanged { self.new ≡ self.old }
    {
        if self.is_stopped() {
            return None;
        }
        let present = self.present;
        match self.table.head(present) {
            Some(number) => overdue_in(&self.table, number, present),
            None => None,
        }
    }
}
