//! Counts and flags of C.

ghost use Rattle.std.specs.Prelude.{◌≡◌};
ghost use Rattle.flash_c.specs.Counts.{count_of, flag};

/// A count of C, which stays at the greatest number of 32 bits.
pub(crate) fn count_of(len: usize) -> u32
    ensures { result ≡ count_of len }
{
    len.min(u32::MAX as usize) as u32
}

/// A `bool` of C.
pub(crate) fn flag(b: bool) -> u32
    ensures { result ≡ flag b }
{
    u32::from(b)
}
