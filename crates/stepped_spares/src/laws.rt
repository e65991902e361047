//! Laws of a table's calls. Each body is empty, and the clauses are the law.

ghost use Rattle.std.specs.Prelude.{◌≡◌, ◌≤◌, ℕ};
ghost use Rattle.spare_blocks.specs.Tables.{IsTable, use_of};
ghost use Rattle.spare_blocks.specs.declared.cells.BlockUse.TheVariants as use_as;
ghost use Rattle.stepped_spares.specs.Stepping.{Stepping, IsMoved, IsSoundStepping};
ghost use Rattle.stepped_spares.specs.declared.moves.Outcome.{Outcome as How};

/// A block that is bad stays so, however a call was carried out.
pub fn a_bad_block_never_comes_back()
    ensures { (how : How) (before after : Stepping) → IsTable before.table → IsSoundStepping before
        → IsMoved how before after → (x : ℕ) → use_of before.table x ≡ use_as.Bad
        → use_of after.table x ≡ use_as.Bad }
{}
