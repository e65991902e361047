//! The box of a mount as C holds it.

ghost use Rattle.std.specs.Prelude.{◌≡◌, IsSome, Option, Some, None};
ghost use Rattle.flash_c.specs.declared.recoveries.Recovery.{Recovery};
ghost use Rattle.flash_c.specs.contracts.recoveries.Recovery.{the_row};
ghost use Rattle.flash_c.specs.Handles.{block_or_null};

use crate::loose::Loose;
use crate::recoveries::Recovery;
use std::alloc::Global;
use std::marker::Model;

/// The box of a mount as C holds it, or nothing.
#[repr(C)]
#[derive(Drop)]
pub struct MountHandle {
    at: *mut u8,
    pub ghost value: { Option Recovery },
}

impl Model for MountHandle {
    ghost also_owns = { λ h. block_or_null the_row h.at h.value };
}

impl MountHandle {
    /// No box. The pointer is of no use.
    pub(crate) fn empty(at: *mut u8) -> MountHandle
        ensures { result.value ≡ None }
    {
        MountHandle { at }
    }

    /// The box.
    pub(crate) fn hold(loose: Loose<Recovery, Global>) -> MountHandle
        ensures { result.value ≡ Some loose.value }
    {
        let Loose { at, alloc: _ } = loose;
        MountHandle { at: at as *mut u8 }
    }

    /// The box again.
    pub(crate) fn release(self, alloc: Global) -> Loose<Recovery, Global>
        requires { IsSome self.value }
        ensures { self.value ≡ Some result.value }
    {
        let MountHandle { at } = self;
        Loose {
            at: at as *mut Recovery,
            alloc,
        }
    }
}

/// Takes the mount out of its handle.
pub(crate) fn take_mount(alloc: Global, handle: &mut MountHandle) -> Box<Recovery>
    requires full { IsSome handle.old.value }
    ensures mount { handle.old.value ≡ Some result.value }
    ensures empty { handle.new.value ≡ None }
{
    let none = MountHandle::empty(null());
    let held = std::mem::replace(handle, none);
    let loose = held.release(alloc);
    loose.into_box()
}

/// Puts a mount into an empty handle.
pub(crate) fn put_mount(handle: &mut MountHandle, mount: Box<Recovery>)
    ensures { handle.new.value ≡ Some mount.value }
{
    *handle = MountHandle::hold(Loose::of(mount));
}

fn null() -> *mut u8 {
    std::ptr::null_mut()
}
