//! The source whose pictures a renderer makes.
ghost use Rattle.std.specs.Prelude.{None};

use crate::renderer::Renderer;
use base::one_more;
use catalog::Catalogue;
use metatile_locks::Ticket;
use metatile_plan::Window;
use raster_field::Raster;
use source_render::{Failed, GivenImages, Source};
use std::alloc::Global;
use std::io::Eprint;
use std::net::Net;
use std::sync::{Arc, Wait};
use std::time::Clock;

/// A source that asks a renderer over HTTP, which it shares with others. Its number isn't modelled.
#[derive(Drop)]
pub struct HttpSource<R: Net + Clock + Wait + Eprint + Drop> {
    rt: R,
    alloc: Global,
    renderer: Arc<Renderer>,
    faults: u64,
    gave: GivenImages,
}

impl<R: Net + Clock + Wait + Eprint + Drop> HttpSource<R> {
    /// A source that has not failed yet.
    pub fn new(rt: R, alloc: Global, renderer: Arc<Renderer>) -> HttpSource<R> {
        HttpSource {
            rt,
            alloc,
            renderer,
            faults: 0,
            gave: GivenImages::new(),
        }
    }
}

impl<R: Net + Clock + Wait + Eprint + Drop> Source for HttpSource<R> {
    ghost told = { λ _. None };

    ghost faults = { λ s. s.faults };

    ghost gave = { λ s. s.gave };

    fn render(
        &mut self,
        catalogue: &Catalogue,
        ticket: &Ticket,
        window: &Window,
        into: &mut Raster,
    ) -> Result<(), Failed> {
        let answer = self.renderer.ask(
            &self.rt,
            self.alloc,
            catalogue,
            ticket.number(),
            &ticket.meta(),
            window,
            into,
        );
        match answer {
            Ok(()) => {
                self.gave = self.gave.and(ticket, window, into);
                Ok(())
            }
            Err(_) => {
                self.faults = one_more(self.faults);
                Err(Failed)
            }
        }
    }
}
