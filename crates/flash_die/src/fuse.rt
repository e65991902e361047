//! A device that fails after some calls.

ghost use Rattle.std.specs.Prelude.{◌≡◌};
ghost use Rattle.flash_die.specs.Fuse.{fuse_round};

use crate::nand::Nand;
use slot_types::{PageData, Place, Refusal, Shape};
use std::marker::Model;

/// A device that passes `left` calls on to another one, those of `shape` not counted, and fails every later one.
/// Contracts see the other device, the calls left and the calls failed here.
#[derive(Drop)]
pub struct FuseNand<N: Nand> {
    inner: N,
    left: u64,
    failed: u32,
}

impl<N: Nand> Model for FuseNand<N> {
    ghost use Rattle.flash_die.specs.Fuse.{Fuse};

    ghost Value = { Fuse N };

    ghost view = { λ f. record { inner = f.inner; left = f.left; failed = f.failed } };
}

impl<N: Nand> FuseNand<N> {
    /// Passes `calls` calls on to `inner`. The device is fresh where `inner` is.
    pub fn new(inner: N, calls: u64) -> Self
        ensures { result ≡ fuse_round inner calls }
    {
        FuseNand {
            inner,
            left: calls,
            failed: 0,
        }
    }
}

impl<N: Nand> Nand for FuseNand<N> {
    ghost use Rattle.std.specs.Prelude.{◌+◌, false};
    ghost use Rattle.flash_die.specs.Fuse.{EndsAsFused};

    ghost shape_of = { λ f. N.shape_of f.inner };

    ghost blocks = { λ f. N.blocks f.inner };

    ghost failures = { λ f. N.failures f.inner + f.failed };

    ghost ends = { EndsAsFused N.ends };

    ghost never_fails = { false };

    fn shape(&self) -> Shape {
        self.inner.shape()
    }

    fn read(&mut self, place: Place) -> Result<PageData, Refusal> {
        if self.left == 0 {
            self.failed += 1;
            return Err(Refusal::DeviceFault);
        }
        self.left -= 1;
        self.inner.read(place)
    }

    fn program(&mut self, place: Place, bytes: PageData) -> Result<(), Refusal> {
        if self.left == 0 {
            self.failed += 1;
            return Err(Refusal::DeviceFault);
        }
        self.left -= 1;
        self.inner.program(place, bytes)
    }

    fn program_page(&mut self, place: Place, page: u32, bytes: PageData) -> Result<(), Refusal> {
        if self.left == 0 {
            self.failed += 1;
            return Err(Refusal::DeviceFault);
        }
        self.left -= 1;
        self.inner.program_page(place, page, bytes)
    }

    fn erase_slot(&mut self, block: u32) -> Result<bool, Refusal> {
        if self.left == 0 {
            self.failed += 1;
            return Err(Refusal::DeviceFault);
        }
        self.left -= 1;
        self.inner.erase_slot(block)
    }
}
