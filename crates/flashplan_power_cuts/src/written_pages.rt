//! Pages that were written.

ghost use Rattle.std.specs.Prelude.{◌≡◌, position};
ghost use Rattle.flashplan_power_cuts.specs.Texts.{has_page, is_of};

use crate::page_writes::PageWrite;

/// Where the first of these writes of a page stands.
fn place_of(writes: &[PageWrite], page: u32) -> Option<usize>
    ensures { result ≡ position (is_of page) writes.now }
{
    writes.iter().position(|write| write.page == page)
}

/// Whether one of these writes is of a page.
pub(crate) fn is_written(writes: &[PageWrite], page: u32) -> bool
    ensures { result ≡ has_page writes.now page }
{
    place_of(writes, page).is_some()
}
