//! What the calls of a device leave open, and that it is nothing else: laws of one answer.
//!
//! Each law is a function that does nothing. Its premises are the clauses of a call that decide, said of two answers
//! `one` and `other`, which leave the devices `left` and `right`, where there was the device `before`.

ghost use Rattle.std.specs.Prelude.{◌≡◌, ◌≤◌, ◌*◌, ℕ, List, length, slice_index};
ghost use Rattle.slot_types.specs.declared.pages.PageData.{PageData};
ghost use Rattle.slot_types.specs.declared.plans.Shape.{Shape};
ghost use Rattle.flash_die.specs.Memory.{AreLeftSo, left_memory};

/// A device as it was left has what was said of it: each block has as many programmed pages as `filled` says and as
/// many erases as `erases` says, no erase runs, and each programmed cell has the bytes that were given for it.
pub fn a_left_device_is_as_it_was()
    ensures { (shape : Shape) (cells : List PageData) (filled erases : List ℕ)
        → length cells ≤ shape.blocks * shape.pages
        → length filled ≡ shape.blocks → ((block : ℕ) → slice_index filled block ≤ shape.pages)
        → AreLeftSo shape cells filled erases (left_memory shape cells filled erases).blocks }
{}
