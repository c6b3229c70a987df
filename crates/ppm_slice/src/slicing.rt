//! Encoded tiles, cut out of a raster.
ghost use Rattle.std.specs.Prelude.{IfOk, OnOk, Some, length, ℕ, ◌+◌, ◌-◌, ◌*◌, ◌<◌, ◌≡◌, ◌≤◌, ◌++◌};
ghost use Rattle.catalog.specs.LookUp.{matrix_in};
ghost use Rattle.catalog.specs.declared.catalogue.Catalogue.{Catalogue};
ghost use Rattle.matrix_geometry.specs.Limits.{IsWithinLimits};
ghost use Rattle.metatile_plan.specs.Plan.{IsIn, IsMetaIn, IsPlan, tiles_of, window_of};
ghost use Rattle.metatile_plan.specs.Texts.{across, blob_len, down, header};
ghost use Rattle.ppm_slice.specs.Cut.{cut_block, cut_pixels, cut_row, cut_rows, cut_text};
ghost use Rattle.ppm_slice.specs.Slicers.{IsSlicer};
ghost use Rattle.raster_field.specs.Blocks.{IsMeta, block_text, factors_at};
ghost use Rattle.raster_field.specs.Rasters.{picture_on};

use itoa::Buffer;
use matrix_geometry::{Matrix, Range};
use metatile_plan::{Factors, MetaKey, Window, blob_len, tiles_of, window};
use raster_field::Raster;
use std::alloc::{AllocError, Global};

/// A raster of a window, with the tiles that are to be cut out of it.
#[derive(Clone, Copy)]
struct Slicer<'a> {
    matrix: Matrix,
    tiles: Range,
    window: Window,
    raster: &'a Raster,
}

fn add(blob: &mut Vec<u8>, bytes: &[u8]) -> Result<(), AllocError>
    ensures { OnOk result (blob.new.items ≡ blob.old.items ++ bytes.now) }
{
    blob.extend_from_slice(bytes)
}

fn add_number(blob: &mut Vec<u8>, number: u32) -> Result<(), AllocError>
    ensures { OnOk result (blob.new.items ≡ blob.old.items ++ Rattle.std.specs.Prelude.decimal number) }
{
    let mut buffer = Buffer::new();
    add(blob, buffer.format(number).as_bytes())
}

fn add_header(blob: &mut Vec<u8>, m: &Matrix) -> Result<(), AllocError>
    ensures { OnOk result (blob.new.items ≡ blob.old.items ++ header m.now) }
{
    add(blob, b"P6\n")?;
    add_number(blob, m.tile_w)?;
    add(blob, b" ")?;
    add_number(blob, m.tile_h)?;
    add(blob, b"\n255\n")
}

/// Where the tiles of a row or column `index` begin in a window that begins at `from`, in pixels.
#[tactic(auto, using(crate::proofs::Offsets::offset_inside))]
fn offset(index: u32, first: u32, last: u32, tile: u32, from: u64, length: u32) -> u32
    requires index { (first ≤ index) × (index ≤ last) }
    requires tile { tile ≤ 512 }
    requires left { from ≤ first * tile }
    requires right { (last + 1) * tile ≤ from + length }
    ensures value { result ≡ index * tile - from }
    ensures inside { result + tile ≤ length }
{
    (u64::from(index) * u64::from(tile) - from) as u32
}

impl Slicer<'_> {
    /// Adds the pixels of a part of the raster, by rows.
    #[tactic(auto, using(crate::proofs::Steps::step_more, std::proofs::lemmas::List::append_assoc))]
    fn add_pixels(&self, blob: &mut Vec<u8>, x: u32, y: u32) -> Result<(), AllocError>
        requires slicer { IsSlicer self.now }
        requires x { x + self.now.matrix.tile_w ≤ self.now.window.width }
        requires y { y + self.now.matrix.tile_h ≤ self.now.window.height }
        ensures { OnOk result (blob.new.items ≡ blob.old.items ++ cut_pixels self.now.raster.now x y self.now.matrix.tile_w self.now.matrix.tile_h) }
    {
        for j in 0..self.matrix.tile_h {
            add(blob, self.raster.part(x, y + j, self.matrix.tile_w))?;
        }
        Ok(())
    }

    /// Adds an encoded tile.
    fn add_text(&self, blob: &mut Vec<u8>, row: u32, col: u32) -> Result<(), AllocError>
        requires slicer { IsSlicer self.now }
        requires tile { IsIn self.now.tiles row col }
        ensures { OnOk result (blob.new.items ≡ blob.old.items ++ cut_text self.now.matrix self.now.window self.now.raster.now row col) }
    {
        let (m, w, tiles) = (&self.matrix, &self.window, &self.tiles);
        let x = offset(col, tiles.col_min, tiles.col_max, m.tile_w, w.x, w.width);
        let y = offset(row, tiles.row_min, tiles.row_max, m.tile_h, w.y, w.height);
        add_header(blob, m)?;
        self.add_pixels(blob, x, y)
    }

    /// Adds the encoded tiles in a row of the block, from the left.
    #[tactic(auto, using(crate::proofs::Steps::step_more, std::proofs::lemmas::List::append_assoc))]
    fn add_row(&self, blob: &mut Vec<u8>, row: u32) -> Result<(), AllocError>
        requires slicer { IsSlicer self.now }
        requires row { (self.now.tiles.row_min ≤ row) × (row ≤ self.now.tiles.row_max) }
        requires cols { self.now.tiles.col_min ≤ self.now.tiles.col_max }
        requires cols_most { self.now.tiles.col_max < self.now.matrix.cols }
        ensures { OnOk result (blob.new.items ≡ blob.old.items ++ cut_row self.now.matrix self.now.window self.now.raster.now row self.now.tiles.col_min (across self.now.tiles)) }
    {
        for i in 0..self.tiles.col_max - self.tiles.col_min + 1 {
            self.add_text(blob, row, self.tiles.col_min + i)?;
        }
        Ok(())
    }

    /// Adds the encoded tiles of the block, row by row.
    #[tactic(auto, using(crate::proofs::Steps::step_more, std::proofs::lemmas::List::append_assoc))]
    fn add_block(&self, blob: &mut Vec<u8>) -> Result<(), AllocError>
        requires slicer { IsSlicer self.now }
        requires rows { self.now.tiles.row_min ≤ self.now.tiles.row_max }
        requires cols { self.now.tiles.col_min ≤ self.now.tiles.col_max }
        requires rows_most { self.now.tiles.row_max < self.now.matrix.rows }
        requires cols_most { self.now.tiles.col_max < self.now.matrix.cols }
        ensures { OnOk result (blob.new.items ≡ blob.old.items ++ cut_rows self.now.matrix self.now.window self.now.tiles self.now.raster.now (down self.now.tiles)) }
    {
        for i in 0..self.tiles.row_max - self.tiles.row_min + 1 {
            self.add_row(blob, self.tiles.row_min + i)?;
        }
        Ok(())
    }
}

/// The blob of a metatile out of a raster of its window: its encoded tiles, row by row. The gutter is cut away.
/// `AllocError` where memory runs out.
pub fn slice_blob(
    alloc: Global,
    meta: &MetaKey,
    f: &Factors,
    m: &Matrix,
    raster: &Raster,
) -> Result<Vec<u8>, AllocError>
    requires limits { IsWithinLimits m.now }
    requires plan { IsPlan f.now m.now }
    requires meta { IsMetaIn f.now m.now meta.now }
    requires width { raster.now.width ≡ (window_of f.now m.now meta.now).width }
    requires height { raster.now.height ≡ (window_of f.now m.now meta.now).height }
    ensures tiles { IfOk result (λ blob. blob.items ≡ cut_block f.now m.now meta.now raster.now) }
    ensures length { IfOk result (λ blob. length blob.items ≡ blob_len f.now m.now meta.now) }
    ensures picture { IfOk result (λ blob. (c : Catalogue) (number : ℕ) → IsMeta c meta.now → matrix_in c meta.now.grid meta.now.z ≡ Some m.now → f.now ≡ factors_at c meta.now.theme → raster.now ≡ picture_on c c.source number (window_of f.now m.now meta.now) → blob.items ≡ block_text c number meta.now) }
{
    // This tells that the raster has the bytes of all its pixels.
    let _ = raster.width();
    let slicer = Slicer {
        matrix: *m,
        tiles: tiles_of(meta, f, m),
        window: window(meta, f, m),
        raster,
    };
    let mut blob = Vec::with_capacity(alloc, blob_len(meta, f, m) as usize)?;
    slicer.add_block(&mut blob)?;
    Ok(blob)
}
