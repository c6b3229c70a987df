//! A source that holds the render of one metatile until another tile was read.
ghost use Rattle.std.specs.Prelude.{None};

use catalog::Catalogue;
use metatile_locks::Ticket;
use metatile_plan::Window;
use raster_field::Raster;
use source_render::{Failed, Numbered, Source};
use std::alloc::{AllocError, Global};
use std::sync::Arc;
use std::sync::atomic::{AtomicU64, Ordering};
use std::thread;

/// How often is looked at most.
const LOOKS: u64 = 10_000_000;

/// The render hasn't begun.
const AWAITED: u64 = 0;

/// The render has begun, and is held.
const HELD: u64 = 1;

/// The other tile was read while the render was held.
const RELEASED: u64 = 2;

/// The render was held for as long as may be, and the other tile wasn't read.
const GIVEN_UP: u64 = 3;

/// How far a render is that is held, as all who share this see it.
#[derive(Drop)]
pub struct Hold {
    state: Arc<AtomicU64>,
}

impl Hold {
    /// The render hasn't begun.
    pub fn new(alloc: Global) -> Result<Hold, AllocError> {
        match Arc::new(alloc, AtomicU64::new(AWAITED)) {
            Ok(state) => Ok(Hold { state }),
            Err(_) => Err(AllocError),
        }
    }

    /// The same for another thread.
    pub fn share(&self) -> Result<Hold, AllocError> {
        match Arc::try_clone(&self.state) {
            Ok(state) => Ok(Hold { state }),
            Err(fault) => Err(fault),
        }
    }

    /// Looks until the render is so far, and says whether it is.
    fn comes_to(&self, state: u64) -> bool {
        for _ in 0..LOOKS {
            if self.state.load(Ordering::SeqCst) == state {
                return true;
            }
            thread::yield_now();
        }
        false
    }

    /// Changes one state into another, and says whether it was the first.
    fn passes(&self, from: u64, to: u64) -> bool {
        self.state
            .compare_exchange(from, to, Ordering::SeqCst, Ordering::SeqCst)
            .is_ok()
    }

    /// Waits until the render is held, and says whether it is.
    pub fn begins(&self) -> bool {
        self.comes_to(HELD)
    }

    /// Lets the render go on, and says whether it was held so long.
    pub fn release(&self) -> bool {
        self.passes(HELD, RELEASED)
    }

    /// Holds the render until it is released, or for as long as may be.
    fn hold(&self) {
        if self.passes(AWAITED, HELD) && !self.comes_to(RELEASED) {
            self.passes(HELD, GIVEN_UP);
        }
    }
}

/// The source of numbered pictures that holds the render of the first metatile at zoom 1.
#[derive(Drop)]
pub struct HeldSource {
    numbered: Numbered,
    hold: Hold,
}

impl HeldSource {
    /// A source whose render is held so.
    pub fn new(hold: Hold) -> HeldSource {
        HeldSource {
            numbered: Numbered::new(0),
            hold,
        }
    }
}

impl Source for HeldSource {
    ghost told = { λ _. None };

    ghost faults = { λ _. 0 };

    ghost gave = { λ s. ⟦<Numbered as Source>⟧.gave s.numbered };

    fn render(
        &mut self,
        catalogue: &Catalogue,
        ticket: &Ticket,
        window: &Window,
        into: &mut Raster,
    ) -> Result<(), Failed> {
        let meta = ticket.meta();
        if (meta.z, meta.row, meta.col) == (1, 0, 0) {
            self.hold.hold();
        }
        self.numbered.render(catalogue, ticket, window, into)
    }
}
