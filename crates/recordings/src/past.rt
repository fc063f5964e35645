//! A history that only clauses see: pieces, one after another. It takes no memory, and its calls do nothing when they
//! run.

ghost use Rattle.std.specs.Prelude.{◌≡◌, List, [], ◌∷◌, ◌++◌};
ghost use Rattle.std.specs.Borrow.{ftrue};

use std::marker::{Model, PhantomData};

/// The pieces so far, each with what is said of it. A clause reads them as `pieces`.
#[derive(Drop)]
pub struct Past<A, B> {
    of: PhantomData<(A, B)>,
    pub ghost pieces: { List (A × B) },
}

impl<A, B> Model for Past<A, B> {
    ghost also_owns = { λ _. ftrue };
}

// It owns nothing.
unsafe impl<A, B> Send for Past<A, B> {}

unsafe impl<A, B> Sync for Past<A, B> {}

impl<A, B> Past<A, B> {
    /// No pieces.
    pub fn new() -> Past<A, B>
        ensures { result.pieces ≡ [] }
    {
        Past { of: PhantomData }
    }

    /// The pieces so far, and one more.
    pub fn and(&self, piece: &A, said: &B) -> Past<A, B>
        ensures { result.pieces ≡ self.now.pieces ++ (piece.now, said.now) ∷ [] }
    {
        Past { of: PhantomData }
    }
}
