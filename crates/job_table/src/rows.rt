//! What is kept of a job beside its operations and its reads.

use crate::stages::Stage;
use slot_types::TaskNo;
use std::mem::size_of;

/// A job or a collection, flat. Its operations are `op_count` of an arena from `first_op` on, of which `read_count`
/// read, and before which stand `first_write` writes. It carried `reads_done` reads and `writes_done` writes. Once it
/// has read, what its reads give has places in another arena from `first_place` on.
#[derive(Clone, Copy, Debug, Drop)]
pub(crate) struct Row {
    pub(crate) task: TaskNo,
    pub(crate) release: u32,
    pub(crate) due: u32,
    pub(crate) first_op: u32,
    pub(crate) first_write: u32,
    pub(crate) first_place: u32,
    pub(crate) work: u32,
    pub(crate) stage: Stage,
    pub(crate) op_count: u8,
    pub(crate) read_count: u8,
    pub(crate) reads_done: u8,
    pub(crate) writes_done: u8,
    pub(crate) collects: bool,
}

const _: () = prove!(size_of::<Row>() == 48);
