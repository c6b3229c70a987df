//! A pass.
ghost use Rattle.std.specs.Prelude.{◌≡◌};
ghost use Rattle.truncation_list.specs.Books.{last_seen};
ghost use Rattle.turnstile.specs.Passes.{IsReady, holding_of, knows};

use crate::chest::Chest;
use crate::view::{Lodged, View};
use atomic_table::Seat;
use std::marker::Model;

/// A place at a turnstile: who has it may take a turn. It keeps the greatest cut that it has seen.
///
/// Contracts see it as the record of its turnstile's table, the charter of the chest, whether the chest was told to be
/// sound, the book that the pass has seen, and what it made, one item for each turn.
#[derive(Drop)]
pub struct Pass<C: Chest> {
    pub(crate) seat: Seat<Option<Lodged<C, C::Command, C::Reply>>, View<C, C::Charter, C::Note>>,
    pub(crate) latest: u64,
}

impl<C: Chest> Model for Pass<C> {
    ghost use Rattle.std.specs.Prelude.{◌≡◌};
    ghost use Rattle.truncation_list.specs.Books.{last_seen};
    ghost use Rattle.turnstile.specs.Passes.{Holding, IsReady, holding_of, knows};

    ghost Value = { Holding C.Charter C.Note };

    ghost view = { λ p. holding_of p.seat };

    ghost invariant = { λ p. IsReady 1 p.seat × (p.latest ≡ last_seen (knows p.seat).own.book.book) };
}

impl<C: Chest> Pass<C> {
    /// The pass of a seat that stands for one pass, with the greatest cut that it has seen.
    pub(crate) fn of(
        seat: Seat<Option<Lodged<C, C::Command, C::Reply>>, View<C, C::Charter, C::Note>>,
        latest: u64,
    ) -> Pass<C>
        requires ready { IsReady 1 seat }
        requires latest { latest ≡ last_seen (knows seat).own.book.book }
        ensures { result ≡ holding_of seat }
    {
        Pass { seat, latest }
    }

    /// Its seat.
    pub(crate) fn into_seat(
        self,
    ) -> Seat<Option<Lodged<C, C::Command, C::Reply>>, View<C, C::Charter, C::Note>>
        ensures ready { IsReady 1 result }
        ensures same { holding_of result ≡ self }
    {
        self.seat
    }
}
