//! A call of a mount is carried out on a device.

ghost use Rattle.std.specs.Prelude.{◌≡◌, ◌<◌, OnOk};
ghost use Rattle.flash_die.specs.Calls.{FailsByFault};
ghost use Rattle.part_mount.specs.Calls.{CanCarryOut, blocks_by, held_by, labels_by};

use die_mount::MountCall;
use labelled_nand::LabelledNand;
use slot_types::{PageData, Refusal};

/// Carries out a call of a mount. A program has the bytes that were read last, and the label of the call.
pub(crate) fn carry_out<N: LabelledNand>(
    part: &mut N,
    held: &mut PageData,
    call: MountCall,
) -> Result<(), Refusal>
    requires can { CanCarryOut (N.blocks part.old) (N.shape_of part.old).pages call }
    requires few_failures { N.failures part.old < 4294967295 }
    ensures blocks { OnOk result (N.blocks part.new
        ≡ blocks_by (N.shape_of part.old).erase_slots held.old call (N.blocks part.old)) }
    ensures labels { OnOk result (N.labels part.new ≡ labels_by (N.shape_of part.old).erase_slots held.old call
        (N.blocks part.old) (N.labels part.old)) }
    ensures held { OnOk result (held.new ≡ held_by call (N.blocks part.old) held.old) }
    ensures fails { FailsByFault N.never_fails result (N.failures part.old)
        (N.failures part.new) }
    ensures shape { N.shape_of part.new ≡ N.shape_of part.old }
    ensures lasts { N.lasts part.old → N.lasts part.new }
{
    match call {
        MountCall::Read { place } => match part.read(place) {
            Ok(bytes) => {
                *held = bytes;
                Ok(())
            }
            Err(refusal) => Err(refusal),
        },
        MountCall::Program { place, label } => {
            part.number_from(label.serial);
            part.program_page(place, label.page, *held)
        }
        MountCall::EraseSlot { block } => match part.erase_slot(block) {
            Ok(_) => Ok(()),
            Err(refusal) => Err(refusal),
        },
    }
}
