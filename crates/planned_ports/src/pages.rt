//! The pages that a task's port may use.

ghost use Rattle.std.specs.Prelude.{◌≡◌};
ghost use Rattle.planned_ports.specs.Pages.{is_in_range, may_use, foreign_page};

use slot_types::Op;

/// Pages from `first` on, as many as `count`.
#[derive(Clone, Copy, PartialEq, Eq, Debug, Drop)]
pub struct PageRange {
    pub first: u32,
    pub count: u32,
}

impl PageRange {
    /// Whether the page is one of these.
    pub fn has(self, page: u32) -> bool
        ensures { result ≡ is_in_range self page }
    {
        self.first <= page && page - self.first < self.count
    }
}

/// Whether a port may use the page: of one without a range, each.
fn is_own(pages: Option<PageRange>, page: u32) -> bool
    ensures { result ≡ may_use pages page }
{
    match pages {
        Some(range) => range.has(page),
        None => true,
    }
}

/// The page of the first operation that is on none of these.
pub(crate) fn first_foreign(pages: Option<PageRange>, ops: &[Op]) -> Option<u32>
    ensures { result ≡ foreign_page pages ops.now }
{
    for op in ops {
        if !is_own(pages, op.page()) {
            return Some(op.page());
        }
    }
    None
}
