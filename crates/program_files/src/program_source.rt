//! The source of pictures that the program works with.
use catalog::Catalogue;
use metatile_locks::Ticket;
use metatile_plan::Window;
use raster_field::Raster;
use renderer_link::HttpSource;
use source_render::{AnySource, Failed, Source};
use std::fs::File;
use std::io::Eprint;
use std::net::Net;
use std::rt::Files;
use std::sync::Wait;
use std::time::Clock;

/// One of the sources that the program may have.
#[derive(Drop)]
pub enum ProgramSource<'a, R: Files<File = File> + Net + Clock + Wait + Eprint + Drop> {
    /// The file of cells, or numbered pictures.
    Local(AnySource<'a, R>),
    /// A renderer over HTTP.
    Http(HttpSource<R>),
}

impl<'a, R: Files<File = File> + Net + Clock + Wait + Eprint + Drop> Source
    for ProgramSource<'a, R> {
    ghost use Rattle.program_files.specs.Sources.{faults_of_source, given_by_source, told_of_source};

    ghost told = { λ s. told_of_source s };

    ghost faults = { λ s. faults_of_source s };

    ghost gave = { λ s. given_by_source s };

    fn render(
        &mut self,
        catalogue: &Catalogue,
        ticket: &Ticket,
        window: &Window,
        into: &mut Raster,
    ) -> Result<(), Failed> {
        match self {
            ProgramSource::Local(source) => source.render(catalogue, ticket, window, into),
            ProgramSource::Http(source) => source.render(catalogue, ticket, window, into),
        }
    }
}
