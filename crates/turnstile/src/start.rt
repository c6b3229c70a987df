//! What a turnstile is made with, for contracts alone.
ghost use Rattle.std.specs.Borrow.{ftrue};
ghost use Rattle.std.specs.Prelude.{◌≡◌, Bool};

use std::marker::{Model, PhantomData};

/// The chest that a turnstile was made with, and whether it was told to be sound. It has no bytes.
#[derive(Drop)]
pub struct Start<C> {
    of: PhantomData<C>,
    pub ghost chest: { C },
    pub ghost told: { Bool },
}

impl<C> Model for Start<C> {
    ghost also_owns = { λ _. ftrue };
}

impl<C> Start<C> {
    /// The start with this chest, and with the mark of being told that the caller picks.
    pub fn of(chest: &C) -> Start<C>
        ghost told: { Bool }
        ensures { (result.chest ≡ chest.now) × (result.told ≡ told) }
    {
        Start { of: PhantomData }
    }
}
