//! A source that is lent is a source.
use crate::source::{Failed, Source};
use catalog::Catalogue;
use metatile_locks::Ticket;
use metatile_plan::Window;
use raster_field::Raster;

impl<S: Source> Source for &mut S {
    ghost told = { λ s. S.told s.now };

    ghost faults = { λ s. S.faults s.now };

    ghost gave = { λ s. S.gave s.now };

    fn render(
        &mut self,
        catalogue: &Catalogue,
        ticket: &Ticket,
        window: &Window,
        into: &mut Raster,
    ) -> Result<(), Failed> {
        (**self).render(catalogue, ticket, window, into)
    }
}
