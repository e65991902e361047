//! The operations of jobs, on a volume.

ghost use Rattle.std.specs.Prelude.{◌≡◌, ◌<◌, true, false, length, slice_index, is_ok, IsSome, IfOk, OnOk, OnErr, find, option_map};
ghost use Rattle.std.specs.Prelude.{nat_le};
ghost use Rattle.slot_types.specs.Operations.{is_write, writes, page_of};
ghost use Rattle.slot_core.specs.Device.{flash_of};
ghost use Rattle.slot_core.specs.OpEffects.{act_by, flash_after_op};
ghost use Rattle.flash_volume.specs.Faults.{FailsWithDevice};
ghost use Rattle.slot_core.specs.Needs.{IsOnlyCall};
ghost use Rattle.slot_core.specs.NextHeadSteps.{op_call};

use flash_die::Nand;
use flash_volume::Volume;
use slot_types::{Act, Op, Refusal, TaskNo};

/// Does an operation of a job of the task, which holds a page for it if it is a write.
pub(crate) fn operate<N: Nand>(volume: &mut Volume<N>, task: TaskNo, op: Op) -> Result<Act, Refusal>
    requires alive { volume.old.failed ≡ false }
    requires task { task < length volume.old.accounts.plan.caps }
    requires page { page_of op < length volume.old.pages }
    requires held { is_write op ≡ true → 0 < slice_index volume.old.accounts.holds task }
    ensures act { IfOk result (λ act. act ≡ act_by (flash_of N.blocks volume.old) op) }
    ensures flash { OnOk result (flash_of N.blocks volume.new
        ≡ flash_after_op (flash_of N.blocks volume.old) task op) }
    ensures plan { volume.new.accounts.plan ≡ volume.old.accounts.plan }
    ensures fails { FailsWithDevice N.failures N.never_fails result volume.old volume.new }
    ensures stays { OnErr result (volume.new.places ≡ volume.old.places) }
    ensures made { IsOnlyCall N.ends (op_call N.blocks volume.old op) (is_ok result)
        volume.old.device volume.new.device }
    ensures needs { OnErr result (IsSome (op_call N.blocks volume.old op)) }
{
    match op {
        Op::Read(page) => {
            let bytes = volume.read(page)?;
            Ok(Act::Read { page, bytes })
        }
        Op::Write(page, bytes) => {
            volume.write(task, page, bytes)?;
            Ok(Act::Write { page, bytes })
        }
        Op::Trim(page) => {
            volume.trim(page)?;
            Ok(Act::Trim { page })
        }
    }
}
