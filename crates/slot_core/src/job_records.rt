//! The jobs and collections of a die, each lent as a whole.

ghost use Rattle.std.specs.Prelude.{◌≡◌, ◌↔◌, Some, None, IfSome, slice_get};
ghost use Rattle.die_log.specs.Model.Log.{job_at};
ghost use Rattle.slot_core.specs.Records.{job_records};
ghost use Rattle.slot_core.specs.Summaries.{summary_in, summary_at};

use crate::die_core::DieCore;
use flash_die::Nand;
use job_table::Job;
use slot_types::JobNo;

impl<N: Nand> DieCore<N> {
    /// The job or collection of a number, lent by the die, or none where the log has none of that number. It takes no
    /// memory and a short time, however long the log is.
    pub fn job_record(&self, number: JobNo) -> Option<Job<'_>>
        ensures record { slice_get (job_records self.now.start self.now.log) number ≡ result }
        ensures summary { IfSome result (λ job.
            summary_at self.now.start self.now.log number ≡ Some (summary_in job)) }
        ensures unknown { (result ≡ None) ↔ (job_at self.now.log number ≡ None) }
    {
        self.table.job(number)
    }
}
