//! Fresh devices, and the stores that are made of them.

ghost use Rattle.std.specs.Prelude.{◌≡◌, map, IfOk};
ghost use Rattle.flash_die.specs.Flash.{IsFresh};

use crate::plans::ROOMY;
use die_service::{DiePass, Store};
use flash_die::{FuseNand, MemoryNand, Nand};
use slot_types::{PageData, Refusal};
use std::alloc::Global;

pub(crate) const ONES: PageData = PageData([0x11; 16]);

pub(crate) const TWOS: PageData = PageData([0x22; 16]);

/// A device in memory.
pub(crate) fn memory(alloc: Global) -> Result<MemoryNand, Refusal>
    ensures { IfOk result (λ nand. IsFresh (⟦<MemoryNand as Nand>⟧.shape_of nand)
        (⟦<MemoryNand as Nand>⟧.blocks nand)
        (⟦<MemoryNand as Nand>⟧.failures nand)) }
{
    MemoryNand::new(alloc, ROOMY.shape)
}

// A device in memory that fails after `calls` calls.
fn fused(alloc: Global, calls: u64) -> Result<FuseNand<MemoryNand>, Refusal>
    ensures { IfOk result (λ nand. IsFresh (⟦<FuseNand<MemoryNand> as Nand>⟧.shape_of nand)
        (⟦<FuseNand<MemoryNand> as Nand>⟧.blocks nand)
        (⟦<FuseNand<MemoryNand> as Nand>⟧.failures nand)) }
{
    Ok(FuseNand::new(memory(alloc)?, calls))
}

/// A store with these devices.
pub(crate) fn store_of<N: Nand>(
    alloc: Global,
    first: N,
    second: N,
) -> Result<(Store<N>, Vec<DiePass<N>>), Refusal>
    requires first { IsFresh (N.shape_of first) (N.blocks first) (N.failures first) }
    requires second { IsFresh (N.shape_of second) (N.blocks second) (N.failures second) }
    ensures { IfOk result (λ made. map (λ pass. pass.lock) made.1.items ≡ made.0) }
{
    let mut nands = Vec::with_capacity(alloc, 2)?;
    nands.push_reserved(first);
    nands.push_reserved(second);
    Store::new(alloc, ROOMY.of_store(alloc, 2)?, nands)
}

/// A store of two dies, the device of the first of which fails from its second call on.
pub(crate) fn faulty_dies(
    alloc: Global,
) -> Result<
    (
        Store<FuseNand<MemoryNand>>,
        Vec<DiePass<FuseNand<MemoryNand>>>,
    ),
    Refusal,
>
    ensures { IfOk result (λ made. map (λ pass. pass.lock) made.1.items ≡ made.0) }
{
    store_of(alloc, fused(alloc, 1)?, fused(alloc, 1000)?)
}

/// A store of three dies, the devices of which fail after these numbers of calls.
pub(crate) fn fused_dies(
    alloc: Global,
    calls: [u64; 3],
) -> Result<
    (
        Store<FuseNand<MemoryNand>>,
        Vec<DiePass<FuseNand<MemoryNand>>>,
    ),
    Refusal,
>
    ensures { IfOk result (λ made. map (λ pass. pass.lock) made.1.items ≡ made.0) }
{
    let mut nands = Vec::with_capacity(alloc, 3)?;
    nands.push_reserved(fused(alloc, calls[0])?);
    nands.push_reserved(fused(alloc, calls[1])?);
    nands.push_reserved(fused(alloc, calls[2])?);
    Store::new(alloc, ROOMY.of_store(alloc, 3)?, nands)
}

/// A store of two dies with devices in memory.
pub(crate) fn two_dies(
    alloc: Global,
) -> Result<(Store<MemoryNand>, Vec<DiePass<MemoryNand>>), Refusal>
    ensures { IfOk result (λ made. map (λ pass. pass.lock) made.1.items ≡ made.0) }
{
    store_of(alloc, memory(alloc)?, memory(alloc)?)
}

/// A store of five dies with devices in memory.
pub(crate) fn five_dies(
    alloc: Global,
) -> Result<(Store<MemoryNand>, Vec<DiePass<MemoryNand>>), Refusal>
    ensures { IfOk result (λ made. map (λ pass. pass.lock) made.1.items ≡ made.0) }
{
    let mut nands = Vec::with_capacity(alloc, 5)?;
    nands.push_reserved(memory(alloc)?);
    nands.push_reserved(memory(alloc)?);
    nands.push_reserved(memory(alloc)?);
    nands.push_reserved(memory(alloc)?);
    nands.push_reserved(memory(alloc)?);
    Store::new(alloc, ROOMY.of_store(alloc, 5)?, nands)
}

// A store of one die with this device.
fn store_with<N: Nand>(alloc: Global, nand: N) -> Result<(Store<N>, Vec<DiePass<N>>), Refusal>
    requires { IsFresh (N.shape_of nand) (N.blocks nand) (N.failures nand) }
    ensures { IfOk result (λ made. map (λ pass. pass.lock) made.1.items ≡ made.0) }
{
    let mut nands = Vec::with_capacity(alloc, 1)?;
    nands.push_reserved(nand);
    Store::new(alloc, ROOMY.of_store(alloc, 1)?, nands)
}

/// A store of one die with a device in memory.
pub(crate) fn one_die(
    alloc: Global,
) -> Result<(Store<MemoryNand>, Vec<DiePass<MemoryNand>>), Refusal>
    ensures { IfOk result (λ made. map (λ pass. pass.lock) made.1.items ≡ made.0) }
{
    store_with(alloc, memory(alloc)?)
}
