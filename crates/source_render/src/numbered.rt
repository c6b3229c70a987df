//! The source of numbered pictures.
ghost use Rattle.std.specs.Prelude.{IsOk, OnOk, Some, [], ◌≡◌};
ghost use Rattle.base.specs.Causes.{HasCause};
ghost use Rattle.catalog.specs.Valid.{IsValid};
ghost use Rattle.raster_field.specs.Blocks.{IsMeta};
ghost use Rattle.raster_field.specs.Rasters.{HasSize, IsWindowOf, picture_on};
ghost use Rattle.source_render.specs.Renders.{Gives};

use crate::given::GivenImages;
use crate::painter::paint;
use crate::source::{Failed, Source};
use catalog::Catalogue;
use metatile_locks::Ticket;
use metatile_plan::Window;
use raster_field::Raster;

/// A source of numbered pictures, which never fails.
#[derive(Drop)]
pub struct Numbered {
    id: u32,
    gave: GivenImages,
}

impl Numbered {
    /// The source of this number.
    pub fn new(id: u32) -> Numbered
        ensures id { result.id ≡ id }
        ensures gave { result.gave ≡ [] }
    {
        Numbered {
            id,
            gave: GivenImages::new(),
        }
    }
}

impl Source for Numbered {
    ghost told = { λ s. Some s.id };

    ghost faults = { λ _. 0 };

    ghost gave = { λ s. s.gave };

    fn render(
        &mut self,
        catalogue: &Catalogue,
        ticket: &Ticket,
        window: &Window,
        into: &mut Raster,
    ) -> Result<(), Failed>
        requires valid { IsValid catalogue.now }
        requires meta { IsMeta catalogue.now ticket.now.meta }
        requires window { IsWindowOf catalogue.now ticket.now.meta window.now }
        requires size { HasSize into.old window.now }
        ensures picture { OnOk result (Some self.old.id ≡ Some catalogue.now.source → into.new ≡ picture_on catalogue.now catalogue.now.source ticket.now.number window.now) }
        ensures size { HasSize into.new window.now }
        ensures cause { HasCause 0 0 result }
        ensures told { Some self.new.id ≡ Some self.old.id }
        ensures gave { Gives self.old.gave self.new.gave ticket.now window.now into.new result }
        ensures never { IsOk result }
    {
        paint(
            self.id,
            catalogue,
            ticket.number(),
            &ticket.meta(),
            window,
            into,
        );
        self.gave = self.gave.and(ticket, window, into);
        Ok(())
    }
}
