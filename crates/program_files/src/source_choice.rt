//! Which source the program has: a renderer over HTTP, where a file names one, or else a file of cells or numbered pictures.
ghost use Rattle.catalog.specs.Valid.{IsValid};

use crate::program_source::ProgramSource;
use crate::source_fault::SourceFault;
use catalog::Catalogue;
use config_text::read_catalogue;
use http_source::RendererConfig;
use http_wire::{FileSource, read_all};
use renderer_link::{HttpSource, Renderer};
use source_render::AnySource;
use std::alloc::{AllocError, Global};
use std::fs::File;
use std::io::{Eprint, ErrorKind};
use std::net::Net;
use std::rt::Files;
use std::sync::{Arc, Wait};
use std::time::Clock;

/// The most bytes of the file that names a renderer.
pub const RENDERER_LIMIT: usize = 65_536;

/// Which source the program has.
#[derive(Drop)]
pub enum SourceChoice {
    /// The file of cells, where there is one, and else numbered pictures.
    Local,
    /// A renderer over HTTP.
    Http(Arc<Renderer>),
}

/// Whether there is a file of this name. One that is there and can't be opened counts.
fn is_there<R: Files<File = File>>(rt: &R, path: &str) -> bool {
    match File::open(rt, path) {
        Ok(_) => true,
        Err(error) => error.kind() != ErrorKind::NotFound,
    }
}

/// The renderer that the file of this name says, by the catalogue.
fn renderer_of<R: Files<File = File> + Net>(
    rt: &R,
    alloc: Global,
    path: &str,
    catalogue: &Catalogue,
) -> Result<SourceChoice, SourceFault>
    requires { IsValid catalogue.now }
{
    let mut file = FileSource::open(rt, path);
    let text = match read_all(alloc, &mut file, RENDERER_LIMIT) {
        Ok(text) => text,
        Err(end) => return Err(SourceFault::from(end)),
    };
    let config = match RendererConfig::read(alloc, catalogue, text.as_slice()) {
        Ok(config) => config,
        Err(fault) => return Err(SourceFault::from(fault)),
    };
    let renderer = match Renderer::new(rt, alloc, config) {
        Ok(renderer) => renderer,
        Err(fault) => return Err(SourceFault::from(fault)),
    };
    match Arc::new(alloc, renderer) {
        Ok(renderer) => Ok(SourceChoice::Http(renderer)),
        Err(_) => Err(SourceFault::OutOfMemory),
    }
}

impl SourceChoice {
    /// The choice that the files of the folder make, by the text of its catalogue: a renderer, where the file `renderer` is there. Where the
    /// text is refused nothing is read, since the words end by its fault.
    pub fn read<R: Files<File = File> + Net>(
        rt: &R,
        alloc: Global,
        renderer: &str,
        cells: &str,
        catalogue: &[u8],
    ) -> Result<SourceChoice, SourceFault> {
        if !is_there(rt, renderer) {
            return Ok(SourceChoice::Local);
        }
        if is_there(rt, cells) {
            return Err(SourceFault::TwoSources);
        }
        match read_catalogue(alloc, catalogue) {
            Ok(catalogue) => renderer_of(rt, alloc, renderer, &catalogue),
            Err(_) => Ok(SourceChoice::Local),
        }
    }

    /// The source of a single run. `cells` is the name of the file of cells, and `id` the number of the pictures where it is absent.
    pub fn of_a_run<'a, R>(
        &self,
        rt: R,
        cells: &'a str,
        id: u32,
    ) -> Result<ProgramSource<'a, R>, AllocError>
    where
        R: Files<File = File> + Net + Clock + Wait + Eprint + AllocGlobal + Drop,
    {
        match self {
            SourceChoice::Local => Ok(ProgramSource::Local(AnySource::of_a_run(rt, cells, id))),
            SourceChoice::Http(renderer) => over_http(rt, renderer),
        }
    }

    /// The source of a program that goes on, which looks for the file of cells at each render.
    pub fn of_a_server<'a, R>(
        &self,
        rt: R,
        cells: &'a str,
        id: u32,
    ) -> Result<ProgramSource<'a, R>, AllocError>
    where
        R: Files<File = File> + Net + Clock + Wait + Eprint + AllocGlobal + Drop,
    {
        match self {
            SourceChoice::Local => Ok(ProgramSource::Local(AnySource::of_a_server(rt, cells, id))),
            SourceChoice::Http(renderer) => over_http(rt, renderer),
        }
    }
}

/// A source that asks this renderer.
fn over_http<'a, R>(rt: R, renderer: &Arc<Renderer>) -> Result<ProgramSource<'a, R>, AllocError>
where
    R: Files<File = File> + Net + Clock + Wait + Eprint + AllocGlobal + Drop,
{
    let alloc = rt.alloc();
    let renderer = Arc::try_clone(renderer)?;
    Ok(ProgramSource::Http(HttpSource::new(rt, alloc, renderer)))
}
