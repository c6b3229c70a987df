//! A renderer, which all sources of a program share.
ghost use Rattle.std.specs.Prelude.{◌≡◌, OnErr};
ghost use Rattle.catalog.specs.Valid.{IsValid};
ghost use Rattle.raster_field.specs.Blocks.{IsMeta};
ghost use Rattle.raster_field.specs.Rasters.{IsWindowOf};

use crate::deadline::Deadline;
use crate::exchange::ExchangeFault;
use crate::fault::RendererFault;
use crate::hosts::{HostFault, Hosts};
use crate::picture::{PictureFault, request_picture};
use crate::report::{FailedRender, Reports};
use crate::timed_link::{TimedLink, connect};
use crate::turns::RenderTurns;
use catalog::Catalogue;
use http_source::RendererConfig;
use metatile_plan::{MetaKey, Window};
use raster_field::Raster;
use std::alloc::Global;
use std::io::{Eprint, Read, Write};
use std::net::{Net, OpenStream};
use std::sync::Wait;
use std::time::Clock;

/// The version of the product, which a renderer is told.
const VERSION: &[u8] = b"0.1.0";

/// How many bytes an answer may have beside its pixels and a sixteenth of them, which the lines of chunks may take.
const BESIDE: usize = 65536;

/// A renderer over HTTP: where it is, what it is asked, how many renders are asked for at a time, and when a failed one was told last.
#[derive(Drop)]
pub struct Renderer {
    config: RendererConfig,
    hosts: Hosts,
    turns: RenderTurns,
    reports: Reports,
}

/// How many bytes an answer may have whose pixels fill a raster.
fn limit_for(raster: &Raster) -> usize {
    let pixels = raster.width() as usize * raster.height() as usize * 3;
    pixels + pixels / 16 + BESIDE
}

/// Why there is no picture, and the body that is none.
#[derive(Drop)]
struct NoPicture {
    fault: RendererFault,
    body: Option<Vec<u8>>,
}

impl From<RendererFault> for NoPicture {
    fn from(fault: RendererFault) -> NoPicture {
        NoPicture { fault, body: None }
    }
}

/// Why an exchange over a connection gave no body.
fn cause_of<R: Clock, S: Read + Write + OpenStream + Drop>(
    fault: ExchangeFault,
    link: &TimedLink<R, S>,
) -> RendererFault {
    match fault {
        ExchangeFault::Link => link.fault(),
        ExchangeFault::Answer(fault) => RendererFault::Answer(fault),
        ExchangeFault::OutOfMemory => RendererFault::OutOfMemory,
    }
}

impl Renderer {
    /// The renderer that a text names. Its hosts are looked up here, once. `Unknown` where one isn't found; `OutOfMemory` where memory
    /// runs out.
    pub fn new<R: Net>(
        rt: &R,
        alloc: Global,
        config: RendererConfig,
    ) -> Result<Renderer, HostFault> {
        Ok(Renderer {
            hosts: Hosts::of(rt, alloc, &config)?,
            turns: RenderTurns::new(config.renders),
            reports: Reports::new(),
            config,
        })
    }

    /// Asks by a request of a layer, and leaves the picture that is answered in a raster.
    fn picture<R: Net + Clock>(
        &self,
        rt: &R,
        alloc: Global,
        layer: u32,
        request: &[u8],
        into: &mut Raster,
    ) -> Result<(), NoPicture>
        ensures width { into.new.width ≡ into.old.width }
        ensures height { into.new.height ≡ into.old.height }
        ensures stays { OnErr result (into.new ≡ into.old) }
    {
        let host = self.hosts.at(self.config.own_place(layer));
        let deadline = Deadline::after(rt, self.config.answer_seconds)?;
        let mut link = connect(rt, host, self.config.connect_seconds, deadline)?;
        match request_picture(alloc, &mut link, request, limit_for(into), into) {
            Ok(()) => Ok(()),
            Err(PictureFault::NoPixmap(body)) => Err(NoPicture {
                fault: RendererFault::NoPixmap,
                body: Some(body),
            }),
            Err(PictureFault::Exchange(fault)) => Err(NoPicture::from(cause_of(fault, &link))),
        }
    }

    /// Tells a failed render.
    fn report<R: Clock + Wait + Eprint>(
        &self,
        rt: &R,
        layer: u32,
        fault: RendererFault,
        request: &[u8],
        body: &[u8],
    ) {
        let failed = FailedRender {
            fault,
            authority: self.config.template_for(layer).authority.as_slice(),
            request,
            body,
        };
        self.reports.tell(rt, &failed);
    }

    /// Asks for a window of a metatile of the catalogue under the number of its render, and leaves in the raster the pixels of the pixmap
    /// that was answered. It waits for its turn first, and then no longer than it may. Where it fails the cause is told on standard error,
    /// at most once a second for all that fail, and the raster stays.
    pub fn ask<R: Net + Clock + Wait + Eprint>(
        &self,
        rt: &R,
        alloc: Global,
        catalogue: &Catalogue,
        number: u64,
        meta: &MetaKey,
        window: &Window,
        into: &mut Raster,
    ) -> Result<(), RendererFault>
        requires valid { IsValid catalogue.now }
        requires meta { IsMeta catalogue.now meta.now }
        requires window { IsWindowOf catalogue.now meta.now window.now }
        ensures width { into.new.width ≡ into.old.width }
        ensures height { into.new.height ≡ into.old.height }
        ensures stays { OnErr result (into.new ≡ into.old) }
    {
        let layer = meta.theme.layer;
        let request = self
            .config
            .request(alloc, catalogue, number, meta, window, VERSION)?;
        self.turns.take(rt);
        let came = self.picture(rt, alloc, layer, request.as_slice(), into);
        self.turns.give_back(rt);
        match came {
            Ok(()) => Ok(()),
            Err(NoPicture { fault, body }) => {
                let body = match &body {
                    Some(body) => body.as_slice(),
                    None => &[],
                };
                self.report(rt, layer, fault, request.as_slice(), body);
                Err(fault)
            }
        }
    }
}
