//! The images that a source gave, for proofs alone.
ghost use Rattle.std.specs.Prelude.{[], ◌∷◌, ◌++◌, ◌≡◌};
ghost use Rattle.source_render.specs.Renders.{given_image};

use base::Trace;
use metatile_locks::Ticket;
use metatile_plan::{MetaKey, Window};
use raster_field::Raster;
use std::marker::Model;

/// The images that a source gave so far, the oldest first, each with the ticket and the window of its render. It has no bytes at run time.
/// Contracts see a list.
#[derive(Drop)]
pub struct GivenImages {
    renders: Trace<(u64, MetaKey, Window)>,
    images: Trace<Raster>,
}

impl Model for GivenImages {
    ghost use Rattle.std.specs.Prelude.{List, length, ◌≡◌};
    ghost use Rattle.source_render.specs.Renders.{GivenImage, joined};

    ghost Value = { List GivenImage };

    ghost view = { λ g. joined g.renders.entries g.images.entries };

    ghost invariant = { λ g. length g.renders.entries ≡ length g.images.entries };
}

impl GivenImages {
    /// Nothing was given yet.
    pub fn new() -> GivenImages
        ensures { result ≡ [] }
    {
        GivenImages {
            renders: Trace::new(),
            images: Trace::new(),
        }
    }

    /// The same with one more image.
    #[tactic(auto, using(crate::proofs::Histories::joined_more))]
    pub fn and(&self, ticket: &Ticket, window: &Window, image: &Raster) -> GivenImages
        ensures { result ≡ self.now ++ given_image ticket.now window.now image.now ∷ [] }
    {
        GivenImages {
            renders: self.renders.and(&(ticket.number(), ticket.meta(), *window)),
            images: self.images.and(image),
        }
    }
}
