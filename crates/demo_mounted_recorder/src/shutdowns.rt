//! The clean shutdown of a die that keeps its plan.

ghost use Rattle.std.specs.Prelude.{IfOk};
ghost use Rattle.flash_volume.specs.Checkpoints.{IsAsLeft};

use crate::dice::Fate;
use crate::plan::CAPS;
use crate::power::Power;
use crate::recorder::Recorder;
use crate::started::Kept;
use crate::stops::Stop;
use clean_shutdown::save_on_part;
use die_checkpoint::Checkpoint;
use flash_die::Nand;
use ongoing_die::OngoingDie;
use saving_nand::SavingNand;
use std::alloc::Global;
use std::cell::Cell;

/// After this number of slots without an ask all is done, and the collections have filled each account.
const QUIET: u32 = 1024;

/// Whether each task has as many pages as it may have.
fn is_full(taken: &Checkpoint) -> bool {
    taken.balances.as_slice() == &CAPS[..]
}

/// Carries out slots until nothing is left to do, and takes a checkpoint there.
fn quiet<N: Nand>(
    alloc: Global,
    die: &mut OngoingDie<N>,
    recorder: &mut Recorder,
) -> Result<Checkpoint, Stop>
    ensures left { IfOk result (λ taken. IsAsLeft taken (N.blocks die.new.die.core.device)
        (N.failures die.new.die.core.device)) }
{
    for _ in 0..QUIET {
        if let Ok(taken) = die.checkpoint(alloc) {
            if is_full(&taken) {
                return Ok(taken);
            }
        }
        recorder.carry(alloc, die)?;
    }
    Err(Stop::NotQuiet)
}

/// Brings a die to rest, and shuts it down on this power: its checkpoint is saved on its part.
pub(crate) fn shut<N: SavingNand>(
    alloc: Global,
    die: Kept<N>,
    recorder: &mut Recorder,
    power: &Cell<Power>,
    fate: &Fate,
) -> Result<(), Stop> {
    let mut die = die;
    let taken = quiet(alloc, &mut die, recorder)?;
    power.set(fate.power());
    match save_on_part(alloc, die.into_device(), taken) {
        Ok(_) => Ok(()),
        Err(no) => Err(Stop::NotSaved(no.refusal)),
    }
}
