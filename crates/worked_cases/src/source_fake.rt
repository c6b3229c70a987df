//! The source of a step, which fails as the lines of a step's file `fakes` say, and tells whether it did.
ghost use Rattle.std.specs.Prelude.{None};

use base::one_more;
use catalog::Catalogue;
use metatile_locks::Ticket;
use metatile_plan::Window;
use raster_field::Raster;
use source_render::{Failed, Scripted, Source};

/// The source of numbered pictures that fails at listed calls, and counts how often it has failed.
#[derive(Drop)]
pub struct SourceFake {
    scripted: Scripted,
    faults: u64,
}

impl SourceFake {
    /// The source of this number, which fails at the calls in `fails`, counted from 1.
    pub fn new(number: u32, fails: Vec<u64>) -> SourceFake {
        SourceFake {
            scripted: Scripted::new(number, fails),
            faults: 0,
        }
    }

    /// Whether a rendering failed.
    pub fn has_failed(&self) -> bool {
        self.faults > 0
    }
}

impl Source for SourceFake {
    ghost told = { λ _. None };

    ghost faults = { λ s. s.faults };

    ghost gave = { λ s. ⟦<Scripted as Source>⟧.gave s.scripted };

    fn render(
        &mut self,
        catalogue: &Catalogue,
        ticket: &Ticket,
        window: &Window,
        into: &mut Raster,
    ) -> Result<(), Failed> {
        match self.scripted.render(catalogue, ticket, window, into) {
            Ok(()) => Ok(()),
            Err(fault) => {
                self.faults = one_more(self.faults);
                Err(fault)
            }
        }
    }
}
