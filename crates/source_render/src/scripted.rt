//! The source of numbered pictures that fails at listed calls, by which tests show what a failure leads to.
ghost use Rattle.std.specs.Prelude.{Contains, IsErr, OnOk, Some, [], true, min, ◌+◌, ◌-◌, ◌^◌, ◌↔◌, ◌≡◌};
ghost use Rattle.base.specs.Causes.{HasCause};
ghost use Rattle.catalog.specs.Valid.{IsValid};
ghost use Rattle.raster_field.specs.Blocks.{IsMeta};
ghost use Rattle.raster_field.specs.Rasters.{HasSize, IsWindowOf, picture_on};
ghost use Rattle.source_render.specs.Renders.{Gives};

use crate::given::GivenImages;
use crate::painter::paint;
use crate::source::{Failed, Source};
use catalog::Catalogue;
use metatile_locks::Ticket;
use metatile_plan::Window;
use raster_field::Raster;

/// A source of numbered pictures that fails at listed calls, for tests.
#[derive(Drop)]
pub struct Scripted {
    id: u32,
    fail: Vec<u64>,
    calls: u64,
    faults: u64,
    gave: GivenImages,
}

impl Scripted {
    /// The source of this number, which fails at the calls in `fail`, counted from 1.
    pub fn new(id: u32, fail: Vec<u64>) -> Scripted
        ensures id { result.id ≡ id }
        ensures fail { result.fail.items ≡ fail.items }
        ensures calls { result.calls ≡ 0 }
        ensures faults { result.faults ≡ 0 }
        ensures gave { result.gave ≡ [] }
    {
        Scripted {
            id,
            fail,
            calls: 0,
            faults: 0,
            gave: GivenImages::new(),
        }
    }

    /// Counts a call, and tells whether it is to fail.
    fn next_fails(&mut self) -> bool
        ensures calls { self.new.calls ≡ min (self.old.calls + 1) (2 ^ 64 - 1) }
        ensures told { (result ≡ true) ↔ Contains self.old.fail.items self.new.calls }
        ensures rest { (self.new.id ≡ self.old.id) × (self.new.fail.items ≡ self.old.fail.items) × (self.new.faults ≡ self.old.faults) × (self.new.gave ≡ self.old.gave) }
    {
        self.calls = self.calls.saturating_add(1);
        self.fail.as_slice().contains(&self.calls)
    }
}

impl Source for Scripted {
    ghost told = { λ s. Some s.id };

    ghost faults = { λ s. s.faults };

    ghost gave = { λ s. s.gave };

    fn render(
        &mut self,
        catalogue: &Catalogue,
        ticket: &Ticket,
        window: &Window,
        into: &mut Raster,
    ) -> Result<(), Failed>
        requires valid { IsValid catalogue.now }
        requires meta { IsMeta catalogue.now ticket.now.meta }
        requires window { IsWindowOf catalogue.now ticket.now.meta window.now }
        requires size { HasSize into.old window.now }
        ensures picture { OnOk result (Some self.old.id ≡ Some catalogue.now.source → into.new ≡ picture_on catalogue.now catalogue.now.source ticket.now.number window.now) }
        ensures size { HasSize into.new window.now }
        ensures cause { HasCause self.old.faults self.new.faults result }
        ensures told { Some self.new.id ≡ Some self.old.id }
        ensures gave { Gives self.old.gave self.new.gave ticket.now window.now into.new result }
        ensures calls { self.new.calls ≡ min (self.old.calls + 1) (2 ^ 64 - 1) }
        ensures fail { self.new.fail.items ≡ self.old.fail.items }
        ensures listed { IsErr result ↔ Contains self.old.fail.items self.new.calls }
    {
        if self.next_fails() {
            self.faults = base::one_more(self.faults);
            return Err(Failed);
        }
        paint(
            self.id,
            catalogue,
            ticket.number(),
            &ticket.meta(),
            window,
            into,
        );
        self.gave = self.gave.and(ticket, window, into);
        Ok(())
    }
}
