//! A slot's reply, of which its number is kept.

ghost use Rattle.std.specs.Prelude.{◌≡◌};

use slot_types::SlotReply;
use std::marker::Model;
use std::snapshot::Snapshot;

/// The number of a slot that was carried out. Contracts see its whole reply.
#[derive(Drop)]
pub struct SlotNote {
    slot: u32,
    reply: Snapshot<SlotReply>,
}

impl Model for SlotNote {
    ghost use Rattle.std.specs.Prelude.{◌≡◌};
    ghost use Rattle.slot_types.specs.declared.replies.SlotReply as replies;

    ghost Value = { replies.SlotReply };

    ghost view = { λ n. n.reply.value };

    ghost invariant = { λ n. n.slot ≡ n.reply.value.slot };
}

impl SlotNote {
    /// The note of a reply.
    pub(crate) fn new(reply: &SlotReply) -> SlotNote
        ensures { result ≡ reply.now }
    {
        SlotNote {
            slot: reply.slot,
            reply: Snapshot::of(reply),
        }
    }

    /// The slot's number.
    pub fn slot(&self) -> u32
        ensures { result ≡ self.now.slot }
    {
        self.slot
    }
}
