//! What each kind of step on the table tells the seat that takes it.
use crate::chest::Chest;
use crate::view::{Lodged, View};
use atomic_table::{Join, Play, Split};
use std::marker::PhantomData;

/// A try to take the turn: it wins or misses.
pub struct Take<C> {
    of: PhantomData<C>,
}

impl<C: Chest> Play<Option<Lodged<C, C::Command, C::Reply>>, View<C, C::Charter, C::Note>>
    for Take<C> {
    ghost use Rattle.turnstile.specs.Steps.{took};

    ghost then = { took C.charter C.sound C.book };
}

/// The chest comes home, and the turn ends.
pub struct Give<C> {
    of: PhantomData<C>,
}

impl<C: Chest> Play<Option<Lodged<C, C::Command, C::Reply>>, View<C, C::Charter, C::Note>>
    for Give<C> {
    ghost use Rattle.turnstile.specs.Steps.{gave};

    ghost then = { gave C.book C.shown C.note };
}

/// A load, by which a seat takes in what it heard.
pub struct Learn;

impl<C, H, N, M, R> Play<Option<Lodged<C, M, R>>, View<C, H, N>> for Learn {
    ghost use Rattle.turnstile.specs.Steps.{learned};

    ghost then = { learned };
}

/// A split into a seat and a copy of what it knows, for another seat to hear.
pub struct Tell;

impl<C, H, N> Split<View<C, H, N>> for Tell {
    ghost use Rattle.turnstile.specs.Views.{newcomer};

    ghost left = { λ v. v };

    ghost right = { newcomer 0 };
}

/// A split that deals out one pass of several.
pub struct Deal;

impl<C, H, N> Split<View<C, H, N>> for Deal {
    ghost use Rattle.turnstile.specs.Views.{newcomer, one_less};

    ghost left = { one_less };

    ghost right = { newcomer 1 };
}

/// A join, by which a seat hears what another one knows.
pub struct Hear;

impl<C, H, N> Join<View<C, H, N>> for Hear {
    ghost use Rattle.turnstile.specs.Views.{hearing, spent};

    ghost both = { hearing };

    ghost spent = { spent };
}
