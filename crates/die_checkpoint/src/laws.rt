//! What is said of a check leaves no choice. Each law is a function that does nothing.

ghost use Rattle.std.specs.Prelude.{◌≢◌};
ghost use Rattle.slot_types.specs.declared.plans.DiePlan.{DiePlan};
ghost use Rattle.die_checkpoint.specs.declared.checkpoint.Checkpoint.{Checkpoint as Stood};
ghost use Rattle.die_checkpoint.specs.declared.fault.CheckpointFault.{CheckpointFault as Cause};
ghost use Rattle.die_checkpoint.specs.Fits.{Fits};
ghost use Rattle.die_checkpoint.specs.Faults.{HasCheckpointFault};

use crate::fault::CheckpointFault;

/// A checkpoint that has a fault doesn't fit. The lack of memory is none.
pub fn a_fault_excludes_fitting()
    ensures { (plan : DiePlan) (c : Stood) (fault : Cause) →
        HasCheckpointFault plan c fault → fault ≢ CheckpointFault.NoMemory → ¬ Fits plan c }
{}
