//! Names and operations as C gives them.

ghost use Rattle.std.specs.Prelude.{◌≡◌, ◌≤◌, length, take, map};
ghost use Rattle.std.specs.List.{list_all};
ghost use Rattle.flash_c.specs.Names.{page_in, name_of, op_in, is_of_a_kind, ops_looked_at};

use crate::shapes::{FlashName, FlashOp};
use slot_types::{Op, PageData};

/// As many operations as are looked at: one more than a job has.
pub(crate) const MOST_OPS: usize = 65;

/// As many operations as most jobs have: places for these are sooner made.
pub(crate) const FEW_OPS: usize = 8;

pub(crate) const NO_NAME: FlashName = FlashName { bytes: [255; 16] };

/// The page that a name stands for.
pub(crate) fn page_in(name: &FlashName) -> PageData
    ensures { result ≡ page_in name.now }
{
    PageData(name.bytes)
}

/// The name of a page.
pub(crate) fn name_of(page: PageData) -> FlashName
    ensures { result ≡ name_of page }
{
    let PageData(bytes) = page;
    FlashName { bytes }
}

/// The operation that one of C stands for.
pub(crate) fn op_in(op: &FlashOp) -> Op
    ensures { result ≡ op_in op.now }
{
    match op.kind {
        0 => Op::Read(op.page),
        1 => Op::Write(op.page, page_in(&op.name)),
        _ => Op::Trim(op.page),
    }
}

/// The operations that are looked at.
pub(crate) fn seen(ops: &[FlashOp]) -> &[FlashOp]
    ensures seen { result.now ≡ ops_looked_at ops.now }
    ensures few { length result.now ≤ 65 }
{
    let count = ops.len().min(MOST_OPS);
    &ops[..count]
}

/// Whether each is of a kind.
pub(crate) fn are_of_a_kind(ops: &[FlashOp]) -> bool
    ensures { result ≡ list_all is_of_a_kind ops.now }
{
    ops.iter().all(|op| op.kind <= 2)
}

/// Puts operations into place.
pub(crate) fn put_ops<const N: usize>(places: &mut [Op; N], ops: &[FlashOp])
    requires few { length ops.now ≤ N }
    ensures { take (length ops.now) places.new ≡ map op_in ops.now }
{
    for i in 0..ops.len() {
        places[i] = op_in(&ops[i]);
    }
}
