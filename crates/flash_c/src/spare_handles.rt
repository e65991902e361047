//! The box of a table of spare blocks as C holds it.

ghost use Rattle.std.specs.Prelude.{◌≡◌, IsSome, Option, Some, None};
ghost use Rattle.flash_c.specs.declared.spare_tables.Spares.{Spares};
ghost use Rattle.flash_c.specs.contracts.spare_tables.Spares.{the_row};
ghost use Rattle.flash_c.specs.Handles.{block_or_null};

use crate::loose::Loose;
use crate::spare_tables::Spares;
use std::alloc::Global;
use std::marker::Model;

/// The box of a table of spare blocks as C holds it, or nothing.
#[repr(C)]
#[derive(Drop)]
pub struct SpareHandle {
    at: *mut u8,
    pub ghost value: { Option Spares },
}

impl Model for SpareHandle {
    ghost also_owns = { λ h. block_or_null the_row h.at h.value };
}

impl SpareHandle {
    /// No box. The pointer is of no use.
    pub(crate) fn empty(at: *mut u8) -> SpareHandle
        ensures { result.value ≡ None }
    {
        SpareHandle { at }
    }

    /// The box.
    pub(crate) fn hold(loose: Loose<Spares, Global>) -> SpareHandle
        ensures { result.value ≡ Some loose.value }
    {
        let Loose { at, alloc: _ } = loose;
        SpareHandle { at: at as *mut u8 }
    }

    /// The box again.
    pub(crate) fn release(self, alloc: Global) -> Loose<Spares, Global>
        requires { IsSome self.value }
        ensures { self.value ≡ Some result.value }
    {
        let SpareHandle { at } = self;
        Loose {
            at: at as *mut Spares,
            alloc,
        }
    }
}

/// Takes the table out of its handle.
pub(crate) fn take_spares(alloc: Global, handle: &mut SpareHandle) -> Box<Spares>
    requires full { IsSome handle.old.value }
    ensures spares { handle.old.value ≡ Some result.value }
    ensures empty { handle.new.value ≡ None }
{
    let none = SpareHandle::empty(null());
    let held = std::mem::replace(handle, none);
    let loose = held.release(alloc);
    loose.into_box()
}

/// Puts a table into an empty handle.
pub(crate) fn put_spares(handle: &mut SpareHandle, spares: Box<Spares>)
    ensures { handle.new.value ≡ Some spares.value }
{
    *handle = SpareHandle::hold(Loose::of(spares));
}

fn null() -> *mut u8 {
    std::ptr::null_mut()
}
