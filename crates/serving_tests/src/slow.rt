//! A source whose renders take long, and are counted.
ghost use Rattle.std.specs.Prelude.{None};

use catalog::Catalogue;
use metatile_locks::Ticket;
use metatile_plan::Window;
use raster_field::Raster;
use source_render::{Failed, Numbered, Source};
use std::sync::atomic::{AtomicU64, Ordering};
use std::thread;
use std::time::{Clock, Duration};

/// How many milliseconds a render takes.
const RENDER: u64 = 1000;

/// The source of numbered pictures, slowly.
#[derive(Drop)]
pub struct SlowSource<'a, R: Clock> {
    pub rt: &'a R,
    pub renders: &'a AtomicU64,
    pub numbered: Numbered,
}

impl<'a, R: Clock> Source for SlowSource<'a, R> {
    ghost told = { λ _. None };

    ghost faults = { λ _. 0 };

    ghost gave = { λ s. ⟦<Numbered as Source>⟧.gave s.numbered };

    fn render(
        &mut self,
        catalogue: &Catalogue,
        ticket: &Ticket,
        window: &Window,
        into: &mut Raster,
    ) -> Result<(), Failed> {
        self.renders.fetch_add(1, Ordering::SeqCst);
        thread::sleep(self.rt, Duration::from_millis(RENDER));
        self.numbered.render(catalogue, ticket, window, into)
    }
}
