//! The pixels of a numbered picture on a window.
ghost use Rattle.std.specs.Prelude.{◌≡◌, ◌+◌, ◌*◌, ◌%◌, ◌^◌, ◌<◌, ◌≤◌, ◌++◌, Some, length, take};
ghost use Rattle.catalog.specs.Valid.{IsLayer, IsValid};
ghost use Rattle.matrix_geometry.specs.Limits.{IsWithinLimits};
ghost use Rattle.raster_field.specs.Blocks.{IsMeta};
ghost use Rattle.raster_field.specs.Picture.{cell_at, shade_of, value_at};
ghost use Rattle.raster_field.specs.Rasters.{HasSize, IsWhole, IsWindowOf, picture_in, picture_on};
ghost use Rattle.raster_field.specs.TileText.{pixel_row};
ghost use Rattle.source_render.specs.Shown.{AreShares, IsPalette, shown};

use crate::palette::{palette_of, put_pixel};
use catalog::{Catalogue, Layer, Style};
use matrix_geometry::{Matrix, Theme};
use metatile_plan::{MetaKey, Window};
use raster_field::{Colour, Raster, cell_at, shade_of};

/// The most columns of a window: 8 tiles of 512, and 64 on both sides.
pub const MOST: usize = 4224;

/// The bytes of so many pixels.
pub const BYTES: usize = 12_672;

/// What is painted: the render of a number, by a source, of a theme on a matrix.
#[derive(Clone, Copy)]
pub struct Painter<'a> {
    pub source: u32,
    pub number: u64,
    pub theme: Theme,
    pub matrix: Matrix,
    pub layer: &'a Layer,
    pub style: &'a Style,
}

/// What a column adds to a value, less all whole 256.
fn share_of(matrix: &Matrix, layer: &Layer, x: u64) -> u8
    requires matrix { IsWithinLimits matrix.now }
    requires layer { IsLayer layer.now }
    requires x { x < 2 ^ 41 }
    ensures { result ≡ (17 * cell_at matrix.now.span layer.now.cell x) % 256 }
{
    (17 * cell_at(matrix, layer, x) % 256) as u8
}

/// What so many columns from `first` on add to a value.
fn shares_of(matrix: &Matrix, layer: &Layer, first: u64, count: u32) -> [u8; MOST]
    requires matrix { IsWithinLimits matrix.now }
    requires layer { IsLayer layer.now }
    requires count { count ≤ 4224 }
    requires first { first + count ≤ 2 ^ 41 }
    ensures { AreShares matrix.now.span layer.now.cell first count result }
{
    let mut shares = [0; MOST];
    for i in 0..count {
        shares[i as usize] = share_of(matrix, layer, first + u64::from(i));
    }
    shares
}

fn sum_of(base: u8, share: u8) -> u8
    ensures { result ≡ (base + share) % 256 }
{
    base.wrapping_add(share)
}

/// Sets a row of a raster.
pub fn put_row(into: &mut Raster, y: u32, row: &[u8])
    requires y { y < into.old.height }
    requires row { length row.now ≡ into.old.width * 3 }
    requires whole { IsWhole into.old }
    ensures width { into.new.width ≡ into.old.width }
    ensures height { into.new.height ≡ into.old.height }
    ensures whole { IsWhole into.new }
    ensures rows { take ((y + 1) * (into.old.width * 3)) into.new.bytes ≡ take (y * (into.old.width * 3)) into.old.bytes ++ row.now }
{
    into.set_row(y, row);
}

impl Painter<'_> {
    /// What a row of pixels adds to a value, with all that the pixels have in common.
    fn base_of(&self, y: u64) -> u8
        requires matrix { IsWithinLimits self.now.matrix }
        requires layer { IsLayer self.now.layer.now }
        requires y { y < 2 ^ 41 }
        ensures { result ≡ (shade_of self.now.source self.now.number self.now.theme + 13 * cell_at self.now.matrix.span self.now.layer.now.cell y) % 256 }
    {
        let down = cell_at(&self.matrix, self.layer, y);
        ((shade_of(self.source, self.number, &self.theme) + 13 * down) % 256) as u8
    }

    /// Paints so many pixels to the right of pixel (x, y).
    #[tactic(auto, using(crate::proofs::Rows::value_of_parts, raster_field::proofs::Pieces::pieces_more, std::proofs::lemmas::List::append_assoc))]
    fn paint_row(
        &self,
        palette: &[Colour; 256],
        shares: &[u8; MOST],
        x: u64,
        y: u64,
        width: u32,
        into: &mut [u8],
    )
        requires matrix { IsWithinLimits self.now.matrix }
        requires layer { IsLayer self.now.layer.now }
        requires palette { IsPalette self.now.style.now.breaks palette.now }
        requires shares { AreShares self.now.matrix.span self.now.layer.now.cell x width shares.now }
        requires width { width ≤ 4224 }
        requires y { y < 2 ^ 41 }
        requires room { length into.old ≡ width * 3 }
        ensures { into.new ≡ pixel_row (shown self.now) x y width }
    {
        let base = self.base_of(y);
        for i in 0..width {
            let value = sum_of(base, shares[i as usize]);
            put_pixel(into, i as usize * 3, palette[value as usize]);
        }
    }

    /// Paints the rows of a window, each in `row` first.
    #[tactic(auto, using(raster_field::proofs::Pieces::pieces_more))]
    fn paint_rows(
        &self,
        palette: &[Colour; 256],
        shares: &[u8; MOST],
        window: &Window,
        row: &mut [u8],
        into: &mut Raster,
    )
        requires matrix { IsWithinLimits self.now.matrix }
        requires layer { IsLayer self.now.layer.now }
        requires palette { IsPalette self.now.style.now.breaks palette.now }
        requires shares { AreShares self.now.matrix.span self.now.layer.now.cell window.now.x window.now.width shares.now }
        requires width { window.now.width ≤ 4224 }
        requires bottom { window.now.y + window.now.height ≤ 2 ^ 41 }
        requires room { length row.old ≡ window.now.width * 3 }
        requires size { HasSize into.old window.now }
        requires whole { IsWhole into.old }
        ensures { into.new ≡ picture_in (Some (shown self.now)) window.now }
    {
        for j in 0..window.height {
            self.paint_row(
                palette,
                shares,
                window.x,
                window.y + u64::from(j),
                window.width,
                row,
            );
            put_row(into, j, row);
        }
    }

    /// Paints a window.
    fn paint(&self, window: &Window, into: &mut Raster)
        requires matrix { IsWithinLimits self.now.matrix }
        requires layer { IsLayer self.now.layer.now }
        requires right { window.now.x + window.now.width ≤ 2 ^ 41 }
        requires bottom { window.now.y + window.now.height ≤ 2 ^ 41 }
        requires size { HasSize into.old window.now }
        ensures { into.new ≡ picture_in (Some (shown self.now)) window.now }
    {
        let width = into.width();
        let palette = palette_of(self.style);
        let shares = shares_of(&self.matrix, self.layer, window.x, width);
        let mut row = [0; BYTES];
        self.paint_rows(
            &palette,
            &shares,
            window,
            &mut row[..width as usize * 3],
            into,
        );
    }
}

/// Paints the picture of a source and a render on a window of a metatile of the catalogue.
#[tactic(auto, using(catalog::proofs::Found::some_told))]
pub fn paint(
    source: u32,
    catalogue: &Catalogue,
    number: u64,
    meta: &MetaKey,
    window: &Window,
    into: &mut Raster,
)
    requires valid { IsValid catalogue.now }
    requires meta { IsMeta catalogue.now meta.now }
    requires window { IsWindowOf catalogue.now meta.now window.now }
    requires size { HasSize into.old window.now }
    ensures { into.new ≡ picture_on catalogue.now source number window.now }
{
    let painter = Painter {
        source,
        number,
        theme: meta.theme,
        matrix: *catalogue.matrix(meta.grid, meta.z),
        layer: catalogue.layer_of(&meta.theme),
        style: catalogue.style_of(&meta.theme),
    };
    painter.paint(window, into);
}
