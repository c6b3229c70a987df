//! The source whose pictures come from a file of cells. The layout of such a file is the matter of `cell_file`.
ghost use Rattle.std.specs.Prelude.{IfSome, None, [], ℕ, ◌+◌, ◌*◌, ◌^◌, ◌<◌, ◌≡◌, ◌≤◌, get_or, length};
ghost use Rattle.catalog.specs.Valid.{IsLayer, IsValid};
ghost use Rattle.matrix_geometry.specs.Limits.{IsWithinLimits};
ghost use Rattle.raster_field.specs.Blocks.{IsMeta};
ghost use Rattle.raster_field.specs.Rasters.{HasSize, IsWhole, IsWindowOf};

use crate::cell_file::{CellGrid, read_grid, read_row};
use crate::given::GivenImages;
use crate::numbered::Numbered;
use crate::painter::{BYTES, MOST, put_row};
use crate::palette::{palette_of, put_pixel};
use crate::source::{Failed, Source};
use catalog::{Catalogue, Layer};
use matrix_geometry::Matrix;
use metatile_locks::Ticket;
use metatile_plan::{MetaKey, Window};
use raster_field::{Colour, Raster, cell_at};
use std::fs::File;
use std::io::ErrorKind;
use std::rt::Files;

/// A source whose pictures come from a file of cells, which is opened by its name and read at each render: so what was put in its place by a rename is what
/// the next render reads. Its number isn't modelled.
#[derive(Drop)]
pub struct GridFile<'a, R: Files<File = File> + Drop> {
    rt: R,
    path: &'a str,
    /// What a render paints that finds no file; without it such a render fails.
    otherwise: Option<Numbered>,
    faults: u64,
    gave: GivenImages,
}

impl<'a, R: Files<File = File> + Drop> GridFile<'a, R> {
    /// The source of the file at this path. A render at a moment at which the file is absent fails.
    pub fn new(rt: R, path: &'a str) -> GridFile<'a, R>
        ensures faults { result.faults ≡ 0 }
        ensures gave { result.gave ≡ [] }
    {
        GridFile {
            rt,
            path,
            otherwise: None,
            faults: 0,
            gave: GivenImages::new(),
        }
    }

    /// The same, but that a render at a moment at which the file is absent paints these pictures.
    pub fn or_numbered(rt: R, path: &'a str, otherwise: Numbered) -> GridFile<'a, R>
        ensures faults { result.faults ≡ 0 }
        ensures gave { result.gave ≡ [] }
    {
        GridFile {
            rt,
            path,
            otherwise: Some(otherwise),
            faults: 0,
            gave: GivenImages::new(),
        }
    }
}

/// The number of a ground cell within so many.
fn cell_within(cell: u128, count: u32) -> u32
    requires { 1 ≤ count }
    ensures { result < count }
{
    (cell % u128::from(count)) as u32
}

/// The columns of cells for so many columns of pixels from `first` on.
fn columns_of(matrix: &Matrix, layer: &Layer, first: u64, count: u32, width: u32) -> [u32; MOST]
    requires matrix { IsWithinLimits matrix.now }
    requires layer { IsLayer layer.now }
    requires count { count ≤ 4224 }
    requires first { first + count ≤ 2 ^ 41 }
    requires width { 1 ≤ width }
    ensures { (i : ℕ) → i < count → get_or result i 0 < width }
{
    let mut columns = [0; MOST];
    for i in 0..count {
        columns[i as usize] = cell_within(cell_at(matrix, layer, first + u64::from(i)), width);
    }
    columns
}

/// Puts the colours of some values into a row.
fn put_values(palette: &[Colour; 256], values: &[u8; MOST], into: &mut [u8])
    requires { length into.old ≤ 12672 }
    ensures { length into.new ≡ length into.old }
{
    for i in 0..into.len() / 3 {
        put_pixel(into, i * 3, palette[values[i] as usize]);
    }
}

/// Paints the rows of a window; `None` where the file can't be read.
fn paint_rows(
    file: &File,
    grid: CellGrid,
    matrix: &Matrix,
    layer: &Layer,
    palette: &[Colour; 256],
    window: &Window,
    row: &mut [u8],
    into: &mut Raster,
) -> Option<()>
    requires matrix { IsWithinLimits matrix.now }
    requires layer { IsLayer layer.now }
    requires grid { 16 + grid.width * grid.height < 2 ^ 64 }
    requires grid_width { 1 ≤ grid.width }
    requires grid_height { 1 ≤ grid.height }
    requires width { window.now.width ≤ 4224 }
    requires right { window.now.x + window.now.width ≤ 2 ^ 41 }
    requires bottom { window.now.y + window.now.height ≤ 2 ^ 41 }
    requires room { length row.old ≡ window.now.width * 3 }
    requires size { HasSize into.old window.now }
    requires whole { IsWhole into.old }
    ensures size { HasSize into.new window.now }
{
    let columns = columns_of(matrix, layer, window.x, window.width, grid.width);
    let mut values = [0; MOST];
    for j in 0..window.height {
        let down = cell_within(cell_at(matrix, layer, window.y + u64::from(j)), grid.height);
        read_row(file, grid, down, &columns, window.width, &mut values)?;
        put_values(palette, &values, row);
        put_row(into, j, row);
    }
    Some(())
}

/// Paints a window; `None` where the file can't be read or is of another form.
#[tactic(auto, using(catalog::proofs::Found::some_told))]
fn paint(
    file: &File,
    catalogue: &Catalogue,
    meta: &MetaKey,
    window: &Window,
    into: &mut Raster,
) -> Option<()>
    requires valid { IsValid catalogue.now }
    requires meta { IsMeta catalogue.now meta.now }
    requires window { IsWindowOf catalogue.now meta.now window.now }
    requires size { HasSize into.old window.now }
    ensures size { HasSize into.new window.now }
{
    let grid = read_grid(file)?;
    let width = into.width();
    let palette = palette_of(catalogue.style_of(&meta.theme));
    let matrix = catalogue.matrix(meta.grid, meta.z);
    let layer = catalogue.layer_of(&meta.theme);
    let mut row = [0; BYTES];
    let row = &mut row[..width as usize * 3];
    paint_rows(file, grid, matrix, layer, &palette, window, row, into)
}

impl<'a, R: Files<File = File> + Drop> GridFile<'a, R> {
    /// Paints a window by the file as it is now, or by what stands in for an absent one; `None` where neither can be.
    fn paint(
        &mut self,
        catalogue: &Catalogue,
        ticket: &Ticket,
        window: &Window,
        into: &mut Raster,
    ) -> Option<()>
        requires valid { IsValid catalogue.now }
        requires meta { IsMeta catalogue.now ticket.now.meta }
        requires window { IsWindowOf catalogue.now ticket.now.meta window.now }
        requires size { HasSize into.old window.now }
        ensures size { HasSize into.new window.now }
        ensures faults { self.new.faults ≡ self.old.faults }
        ensures gave { self.new.gave ≡ self.old.gave }
    {
        match File::open(&self.rt, self.path) {
            Ok(file) => paint(&file, catalogue, &ticket.meta(), window, into),
            Err(error) => {
                if error.kind() != ErrorKind::NotFound {
                    return None;
                }
                let numbered = self.otherwise.as_mut()?;
                numbered.render(catalogue, ticket, window, into).ok()
            }
        }
    }
}

impl<'a, R: Files<File = File> + Drop> Source for GridFile<'a, R> {
    ghost told = { λ _. None };

    ghost faults = { λ s. s.faults };

    ghost gave = { λ s. s.gave };

    fn render(
        &mut self,
        catalogue: &Catalogue,
        ticket: &Ticket,
        window: &Window,
        into: &mut Raster,
    ) -> Result<(), Failed> {
        match self.paint(catalogue, ticket, window, into) {
            Some(()) => {
                self.gave = self.gave.and(ticket, window, into);
                Ok(())
            }
            None => {
                self.faults = base::one_more(self.faults);
                Err(Failed)
            }
        }
    }
}
