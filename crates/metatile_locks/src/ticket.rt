//! The ticket of a render, made and spent by its crate alone.
ghost use Rattle.std.specs.Prelude.{◌≡◌};

use metatile_plan::MetaKey;
use std::marker::Model;

/// The right to render a metatile under a number. It must be spent, and `Locks::begin` alone makes one.
pub struct Ticket {
    number: u64,
    meta: MetaKey,
}

impl Model for Ticket {
    ghost use Rattle.metatile_locks.specs.Tickets.{Ticketed};

    ghost Value = { Ticketed };

    ghost view = { λ t. record { number = t.number; meta = t.meta } };
}

impl Ticket {
    ghost use Rattle.metatile_locks.specs.Tickets.{Ticketed};

    /// The ticket of a render that begins.
    pub(crate) fn new(number: u64, meta: &MetaKey) -> Ticket
        ensures { result ≡ record { number = number; meta = meta.now } }
    {
        Ticket {
            number,
            meta: *meta,
        }
    }

    /// The number and the metatile, for the end of the render.
    pub(crate) fn spend(self) -> (u64, MetaKey)
        ensures { self ≡ record { number = result.0; meta = result.1 } }
    {
        let Ticket { number, meta } = self;
        (number, meta)
    }

    /// The number of the render.
    pub fn number(&self) -> u64
        ensures { result ≡ self.now.number }
    {
        self.number
    }

    /// The metatile that is to be rendered.
    pub fn meta(&self) -> MetaKey
        ensures { result ≡ self.now.meta }
    {
        self.meta
    }
}
