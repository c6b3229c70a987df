//! The source of a program: numbered pictures, or those of a file of cells where there is one.
use crate::grid_file::GridFile;
use crate::numbered::Numbered;
use crate::source::{Failed, Source};
use catalog::Catalogue;
use metatile_locks::Ticket;
use metatile_plan::Window;
use raster_field::Raster;
use std::fs::File;
use std::io::ErrorKind;
use std::rt::Files;

/// One of the sources that a program may be given.
#[derive(Drop)]
pub enum AnySource<'a, R: Files<File = File> + Drop> {
    Numbered(Numbered),
    File(GridFile<'a, R>),
}

/// Whether there is no file at this path.
fn is_absent<R: Files<File = File>>(rt: &R, path: &str) -> bool {
    match File::open(rt, path) {
        Ok(_) => false,
        Err(error) => error.kind() == ErrorKind::NotFound,
    }
}

impl<'a, R: Files<File = File> + Drop> AnySource<'a, R> {
    /// The source of a single run: that of the file of cells at this path, or where the file is absent now the numbered pictures of `id`.
    pub fn of_a_run(rt: R, path: &'a str, id: u32) -> AnySource<'a, R> {
        if is_absent(&rt, path) {
            return AnySource::Numbered(Numbered::new(id));
        }
        AnySource::File(GridFile::new(rt, path))
    }

    /// The source of a program that goes on, which looks for the file of cells at each render. Where the file is absent now, a render that finds none paints
    /// the numbered picture of `id`, and one that finds it takes it; else a render that finds none fails.
    pub fn of_a_server(rt: R, path: &'a str, id: u32) -> AnySource<'a, R> {
        if is_absent(&rt, path) {
            return AnySource::File(GridFile::or_numbered(rt, path, Numbered::new(id)));
        }
        AnySource::File(GridFile::new(rt, path))
    }
}

impl<'a, R: Files<File = File> + Drop> Source for AnySource<'a, R> {
    ghost use Rattle.source_render.specs.Told.{faults_of, given_by, told_of};

    ghost told = { λ s. told_of s };

    ghost faults = { λ s. faults_of s };

    ghost gave = { λ s. given_by s };

    fn render(
        &mut self,
        catalogue: &Catalogue,
        ticket: &Ticket,
        window: &Window,
        into: &mut Raster,
    ) -> Result<(), Failed> {
        match self {
            AnySource::Numbered(source) => source.render(catalogue, ticket, window, into),
            AnySource::File(source) => source.render(catalogue, ticket, window, into),
        }
    }
}
