//! A box as C holds it.

ghost use Rattle.std.specs.Prelude.{◌≡◌, IsSome, Option, Some, None};
ghost use Rattle.stepped_die.specs.declared.die.SteppedDie.{SteppedDie};
ghost use Rattle.stepped_die.specs.contracts.die.SteppedDie.{the_row};
ghost use Rattle.flash_c.specs.Handles.{block_or_null};

use crate::loose::Loose;
use std::alloc::Global;
use std::marker::Model;
use stepped_die::SteppedDie;

/// A box as C holds it, or nothing.
#[repr(C)]
#[derive(Drop)]
pub struct Handle {
    at: *mut u8,
    pub ghost value: { Option SteppedDie },
}

impl Model for Handle {
    ghost also_owns = { λ h. block_or_null the_row h.at h.value };
}

impl Handle {
    /// No box. The pointer is of no use.
    pub(crate) fn empty(at: *mut u8) -> Handle
        ensures { result.value ≡ None }
    {
        Handle { at }
    }

    /// The box.
    pub(crate) fn hold(loose: Loose<SteppedDie, Global>) -> Handle
        ensures { result.value ≡ Some loose.value }
    {
        let Loose { at, alloc: _ } = loose;
        Handle { at: at as *mut u8 }
    }

    /// The box again.
    pub(crate) fn release(self, alloc: Global) -> Loose<SteppedDie, Global>
        requires { IsSome self.value }
        ensures { self.value ≡ Some result.value }
    {
        let Handle { at } = self;
        Loose {
            at: at as *mut SteppedDie,
            alloc,
        }
    }
}

/// Takes the die out of its handle.
pub(crate) fn take(alloc: Global, handle: &mut Handle) -> Box<SteppedDie>
    requires full { IsSome handle.old.value }
    ensures die { handle.old.value ≡ Some result.value }
    ensures empty { handle.new.value ≡ None }
{
    let none = Handle::empty(null());
    let held = std::mem::replace(handle, none);
    let loose = held.release(alloc);
    loose.into_box()
}

/// Puts a die into an empty handle.
pub(crate) fn put(handle: &mut Handle, die: Box<SteppedDie>)
    ensures { handle.new.value ≡ Some die.value }
{
    *handle = Handle::hold(Loose::of(die));
}

fn null() -> *mut u8 {
    std::ptr::null_mut()
}
