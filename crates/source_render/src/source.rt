//! The trait of what renders pictures.
ghost use Rattle.std.specs.Prelude.{◌≡◌, ℕ, List, OnOk, Some};
ghost use Rattle.std.specs.declared.option.Option.{Option};
ghost use Rattle.base.specs.Causes.{HasCause};
ghost use Rattle.catalog.specs.Valid.{IsValid};
ghost use Rattle.raster_field.specs.Blocks.{IsMeta};
ghost use Rattle.raster_field.specs.Rasters.{HasSize, IsWindowOf, picture_on};
ghost use Rattle.source_render.specs.Renders.{GivenImage, Gives};

use catalog::Catalogue;
use metatile_locks::Ticket;
use metatile_plan::Window;
use raster_field::Raster;

/// A rendering that failed.
#[derive(Clone, Copy, Debug, PartialEq, Eq)]
pub struct Failed;

/// What renders pictures.
pub trait Source: Drop {
    /// The number of the source whose pictures it renders, where it is modelled.
    ghost told: { Self → Option ℕ };

    /// How often it has failed. The count stays at its last value, 2^64 - 1.
    ghost faults: { Self → ℕ };

    /// The images that it gave, the oldest first.
    ghost gave: { Self → List GivenImage };

    /// Renders the picture of a ticket's number on a window of the ticket's metatile. `Failed` only where the count of faults
    /// rose; `into` then shows anything. What it leaves in `into` else is what it gave, in its history.
    fn render(
        &mut self,
        catalogue: &Catalogue,
        ticket: &Ticket,
        window: &Window,
        into: &mut Raster,
    ) -> Result<(), Failed>
        requires valid { IsValid catalogue.now }
        requires meta { IsMeta catalogue.now ticket.now.meta }
        requires window { IsWindowOf catalogue.now ticket.now.meta window.now }
        requires size { HasSize into.old window.now }
        ensures picture { OnOk result (told self.old ≡ Some catalogue.now.source → into.new ≡ picture_on catalogue.now catalogue.now.source ticket.now.number window.now) }
        ensures size { HasSize into.new window.now }
        ensures cause { HasCause (faults self.old) (faults self.new) result }
        ensures told { told self.new ≡ told self.old }
        ensures gave { Gives (gave self.old) (gave self.new) ticket.now window.now into.new result };
}
