//! Whether a render is newer than each cut that hits its metatile. Only the cuts of its layer, grid and zoom are looked at, and of these none of a
//! lesser number. Where they are aimed at the zoom, each takes a few comparisons; else the tiles of its box are reckoned.
ghost use Rattle.std.specs.Prelude.{Some, slice_get, true, ◌≡◌, ◌↔◌};
ghost use Rattle.cabinet.specs.Fresh.{IsNewer};
ghost use Rattle.cabinet_records.specs.Played.{IsNewerThan};
ghost use Rattle.catalog.specs.Valid.{IsGrid, IsValid};
ghost use Rattle.matrix_geometry.specs.Limits.{IsWithinLimits};
ghost use Rattle.raster_field.specs.Blocks.{IsMeta};

use crate::replay::aimed::Zoom;
use crate::replay::cuts::ReplayCuts;
use catalog::{Catalogue, Grid};
use matrix_geometry::Matrix;
use metatile_plan::{MetaKey, tiles_of};
use raster_field::{Layout, is_meta, layout_of};
use std::alloc::Global;
use truncation_list::{Block, CutList};

/// Whether the number is above those of all cuts that hit a block.
fn is_newer_than(cuts: &CutList, m: &Matrix, block: &Block, number: u64) -> bool
    requires { IsWithinLimits m.now }
    ensures { (result ≡ true) ↔ IsNewerThan cuts.now.book.cuts m.now block.now number }
{
    !cuts.newest_hit(m, block, number)
}

/// The zoom of a metatile of the catalogue.
fn zoom_of(meta: &MetaKey, layout: &Layout) -> Zoom
    ensures { result ≡ record { layer = meta.now.theme.layer; grid = meta.now.grid; z = meta.now.z; factors = layout.now.factors; matrix = layout.now.matrix } }
{
    Zoom {
        layer: meta.theme.layer,
        grid: meta.grid,
        z: meta.z,
        factors: layout.factors,
        matrix: layout.matrix,
    }
}

/// Whether the number is above those of all cuts that hit a metatile.
pub fn is_newer(catalogue: &Catalogue, cuts: &ReplayCuts, number: u64, meta: &MetaKey) -> bool
    requires valid { IsValid catalogue.now }
    requires meta { IsMeta catalogue.now meta.now }
    ensures { (result ≡ true) ↔ IsNewer catalogue.now cuts.now.book.cuts number meta.now }
{
    let layout = layout_of(catalogue, meta);
    let zoom = zoom_of(meta, &layout);
    match cuts.hit_since(&zoom, number, meta) {
        Some(is_hit) => !is_hit,
        None => {
            let block = Block {
                theme: meta.theme,
                grid: meta.grid,
                z: meta.z,
                tiles: tiles_of(meta, &layout.factors, &layout.matrix),
            };
            is_newer_than(cuts.list(), &layout.matrix, &block, number)
        }
    }
}

/// The grid of a metatile of the catalogue.
#[tactic(auto, using(catalog::proofs::Found::some_told, catalog::proofs::Found::some_before))]
fn grid_of<'a>(catalogue: &'a Catalogue, meta: &MetaKey) -> &'a Grid
    requires valid { IsValid catalogue.now }
    requires meta { IsMeta catalogue.now meta.now }
    ensures grid { slice_get catalogue.now.grids meta.now.grid ≡ Some result.now }
    ensures valid { IsGrid result.now }
{
    catalogue.grid(meta.grid)
}

/// Aims the cuts at the zoom of a metatile, as far down as `is_newer` looks for this number. That makes it fast, and changes nothing else.
pub fn aim(cuts: &mut ReplayCuts, alloc: Global, catalogue: &Catalogue, number: u64, meta: &MetaKey)
    requires { IsValid catalogue.now }
    ensures { cuts.new ≡ cuts.old }
{
    if cuts.list().seen() < number {
        return;
    }
    if !is_meta(catalogue, meta) {
        return;
    }
    let layout = layout_of(catalogue, meta);
    let zoom = zoom_of(meta, &layout);
    let grid = grid_of(catalogue, meta);
    cuts.aim(alloc, &zoom, grid, number);
}
