//! What was opened, as it was then: a value without bytes, which only clauses read.

ghost use Rattle.std.specs.Prelude.{◌≡◌};
ghost use Rattle.std.specs.Borrow.{ftrue};

use std::marker::{Model, PhantomData};

/// What was opened, as it was then. It takes no memory.
// It is std's `Snapshot`, except for this: of a struct that has one, the kit doesn't prove where it is declared that it
// may be sent to a thread (README.md, "To a thread").
pub(crate) struct AsOpened<T> {
    marker: PhantomData<T>,
    pub(crate) ghost value: { T },
}

impl<T> Model for AsOpened<T> {
    ghost also_owns = { λ _. ftrue };
}

// It owns nothing.
unsafe impl<T> Send for AsOpened<T> {}

impl<T> Drop for AsOpened<T> {
    fn drop(self) {
        let Self { marker: _ } = self;
    }
}

impl<T> AsOpened<T> {
    /// What is opened, as it is now.
    pub(crate) fn of(it: &T) -> AsOpened<T>
        ensures { result.value ≡ it.now }
    {
        let _ = it;
        AsOpened {
            marker: PhantomData,
        }
    }
}
