//! A source that holds a render until another tile was answered.
ghost use Rattle.std.specs.Prelude.{None};

use catalog::Catalogue;
use metatile_locks::Ticket;
use metatile_plan::Window;
use raster_field::Raster;
use source_render::{Failed, Numbered, Source};
use std::alloc::{AllocError, Global};
use std::sync::Arc;
use std::sync::atomic::{AtomicU64, Ordering};
use std::thread;

/// How often is looked at most.
const LOOKS: u64 = 10_000_000;

/// What two threads tell each other: how far each has come.
#[derive(Drop)]
pub struct Stage {
    of: Arc<AtomicU64>,
}

impl Stage {
    /// Nothing has begun.
    pub fn new(alloc: Global) -> Result<Stage, AllocError> {
        match Arc::new(alloc, AtomicU64::new(0)) {
            Ok(of) => Ok(Stage { of }),
            Err(_) => Err(AllocError),
        }
    }

    /// The same for another thread.
    pub fn share(&self) -> Result<Stage, AllocError> {
        match Arc::try_clone(&self.of) {
            Ok(of) => Ok(Stage { of }),
            Err(fault) => Err(fault),
        }
    }

    /// So far has it come.
    pub fn reach(&self, step: u64) {
        self.of.store(step, Ordering::SeqCst);
    }

    /// Looks until it has come so far, and says whether it has.
    pub fn wait_for(&self, step: u64) -> bool {
        for _ in 0..LOOKS {
            if self.of.load(Ordering::SeqCst) >= step {
                return true;
            }
            thread::yield_now();
        }
        false
    }
}

/// The source of numbered pictures that tells that a render has begun, and holds it until the stage is 2.
#[derive(Drop)]
pub struct Held {
    pub numbered: Numbered,
    pub stage: Stage,
    /// Whether the other tile was answered while the render was held.
    pub is_in_time: bool,
}

impl Source for Held {
    ghost told = { λ _. None };

    ghost faults = { λ _. 0 };

    ghost gave = { λ s. ⟦<Numbered as Source>⟧.gave s.numbered };

    fn render(
        &mut self,
        catalogue: &Catalogue,
        ticket: &Ticket,
        window: &Window,
        into: &mut Raster,
    ) -> Result<(), Failed> {
        self.stage.reach(1);
        self.is_in_time = self.stage.wait_for(2);
        self.numbered.render(catalogue, ticket, window, into)
    }
}
