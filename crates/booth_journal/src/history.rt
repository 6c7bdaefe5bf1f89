//! A history that only proofs read. It takes no memory, and its functions do nothing when they run.
ghost use Rattle.std.specs.Prelude.{◌≡◌, List, [], ◌∷◌, ◌++◌};
ghost use Rattle.std.specs.Borrow.{ftrue};

use std::marker::{Model, PhantomData};

/// Pairs of values, the oldest first. Contracts see them as `items`.
pub struct History<A, B> {
    of: PhantomData<(A, B)>,
    pub ghost items: { List (A × B) },
}

impl<A, B> Model for History<A, B> {
    ghost also_owns = { λ _. ftrue };
}

impl<A, B> History<A, B> {
    /// Returns an empty history.
    pub(crate) fn new() -> History<A, B>
        ensures { result.items ≡ [] }
    {
        History { of: PhantomData }
    }

    /// Returns the history with one more pair.
    pub(crate) fn and(&self, first: &A, second: &B) -> History<A, B>
        ensures { result.items ≡ self.now.items ++ (first.now, second.now) ∷ [] }
    {
        History { of: PhantomData }
    }
}

impl<A, B> Drop for History<A, B> {
    fn drop(self) {
        let History { of: _ } = self;
    }
}
