//! How a table fails: it tells which step went otherwise than it says, what that step wants, and what the die answered.

use std::fmt::Debug;
use std::process::Abort;
use test_memory::Memory;

/// Tells of the step that is played, as `step 4 of the table: want .., got ..`. The first step has number 1.
#[derive(Drop)]
pub(crate) struct Reported<'a, R: Abort> {
    pub(crate) rt: &'a R,
    pub(crate) memory: Memory,
    pub(crate) table: &'a str,
    pub(crate) step: usize,
}

impl<'a, R: Abort> Reported<'a, R> {
    /// Fails the test where an answer isn't right, and shows it with what was wanted.
    pub(crate) fn fits<G: Debug, W: Debug>(&self, right: bool, got: &G, want: &W) {
        let (table, step) = (self.table, self.step);
        assert!(self.rt;
            right,
            "step {step} of the {table}: want {want:?}, got {got:?}"
        );
    }

    /// Fails the test where an answer isn't what was wanted, and shows both.
    pub(crate) fn same<T: PartialEq + Debug>(&self, got: &T, want: &T) {
        self.fits(got == want, got, want)
    }
}
