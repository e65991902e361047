//! The box of a die that keeps its plan as C holds it.

ghost use Rattle.std.specs.Prelude.{◌≡◌, IsSome, Option, Some, None};
ghost use Rattle.flash_c.specs.declared.kept.KeptDie.{KeptDie};
ghost use Rattle.flash_c.specs.contracts.kept.KeptDie.{the_row};
ghost use Rattle.flash_c.specs.Handles.{block_or_null};

use crate::kept::KeptDie;
use crate::loose::Loose;
use std::alloc::Global;
use std::marker::Model;

/// The box of a die that keeps its plan as C holds it, or nothing.
#[repr(C)]
#[derive(Drop)]
pub struct PlannedHandle {
    at: *mut u8,
    pub ghost value: { Option KeptDie },
}

impl Model for PlannedHandle {
    ghost also_owns = { λ h. block_or_null the_row h.at h.value };
}

impl PlannedHandle {
    /// No box. The pointer is of no use.
    pub(crate) fn empty(at: *mut u8) -> PlannedHandle
        ensures { result.value ≡ None }
    {
        PlannedHandle { at }
    }

    /// The box.
    pub(crate) fn hold(loose: Loose<KeptDie, Global>) -> PlannedHandle
        ensures { result.value ≡ Some loose.value }
    {
        let Loose { at, alloc: _ } = loose;
        PlannedHandle { at: at as *mut u8 }
    }

    /// The box again.
    pub(crate) fn release(self, alloc: Global) -> Loose<KeptDie, Global>
        requires { IsSome self.value }
        ensures { self.value ≡ Some result.value }
    {
        let PlannedHandle { at } = self;
        Loose {
            at: at as *mut KeptDie,
            alloc,
        }
    }
}

/// Takes the die out of its handle.
pub(crate) fn take_kept(alloc: Global, handle: &mut PlannedHandle) -> Box<KeptDie>
    requires full { IsSome handle.old.value }
    ensures die { handle.old.value ≡ Some result.value }
    ensures empty { handle.new.value ≡ None }
{
    let none = PlannedHandle::empty(null());
    let held = std::mem::replace(handle, none);
    let loose = held.release(alloc);
    loose.into_box()
}

/// Puts a die into an empty handle.
pub(crate) fn put_kept(handle: &mut PlannedHandle, kept: Box<KeptDie>)
    ensures { handle.new.value ≡ Some kept.value }
{
    *handle = PlannedHandle::hold(Loose::of(kept));
}

fn null() -> *mut u8 {
    std::ptr::null_mut()
}
