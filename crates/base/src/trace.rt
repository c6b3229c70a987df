//! A history that proofs alone read.
//!
//! What a cache answers is a function of what happened in it. A `Trace` keeps that list for contracts: it has no bytes
//! at run time, and its methods do nothing there.
//! Promises: `new` has no entry, and `and` has one more.
ghost use Rattle.std.specs.Borrow.{ftrue};
ghost use Rattle.std.specs.Prelude.{◌≡◌, List, [], ◌∷◌, ◌++◌};

use std::marker::{Model, PhantomData};

/// What happened so far, the oldest entry first. Clauses read it as `entries`.
#[derive(Drop)]
pub struct Trace<E> {
    of: PhantomData<E>,
    pub ghost entries: { List E },
}

impl<E> Model for Trace<E> {
    ghost also_owns = { λ _. ftrue };
}

// It owns nothing, so it may go to another thread wherever an entry may.
unsafe impl<E: Send> Send for Trace<E> {}

impl<E> Trace<E> {
    /// Nothing happened yet.
    pub fn new() -> Trace<E>
        ensures { result.entries ≡ [] }
    {
        Trace { of: PhantomData }
    }

    /// The same history with one more entry.
    pub fn and(&self, entry: &E) -> Trace<E>
        ensures { result.entries ≡ self.now.entries ++ entry.now ∷ [] }
    {
        Trace { of: PhantomData }
    }
}
