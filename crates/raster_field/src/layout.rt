//! What a catalogue says of a metatile: how its tiles are gathered, on which matrix, and what its blob and its window are.
ghost use Rattle.std.specs.Prelude.{◌≡◌, ◌≤◌, Some};
ghost use Rattle.catalog.specs.LookUp.{IsTile, matrix_in};
ghost use Rattle.catalog.specs.Valid.{IsValid};
ghost use Rattle.matrix_geometry.specs.Limits.{IsWithinLimits};
ghost use Rattle.metatile_plan.specs.Plan.{IsMetaIn, IsPlan};
ghost use Rattle.raster_field.specs.Blocks.{IsMeta, blob_size, block_of, factors_at, factors_of, first_tile};
ghost use Rattle.raster_field.specs.Rasters.{IsWindowOf, window_in};

use catalog::{Catalogue, Layer};
use matrix_geometry::{Address, Matrix};
use metatile_plan::{Factors, MetaKey, Window, blob_len, meta_of, window};

/// How the tiles of a layer are gathered into metatiles.
pub fn factors_of(layer: &Layer) -> Factors
    ensures { result ≡ factors_of layer.now }
{
    Factors {
        x: layer.meta_x,
        y: layer.meta_y,
        gutter: layer.gutter,
    }
}

/// How the tiles of a metatile of the catalogue are gathered, and on which matrix.
#[derive(Clone, Copy)]
pub struct Layout {
    pub factors: Factors,
    pub matrix: Matrix,
}

/// The factors and the matrix of a metatile of the catalogue. They are within the limits.
#[tactic(auto, using(catalog::proofs::Found::some_told))]
pub fn layout_of(catalogue: &Catalogue, meta: &MetaKey) -> Layout
    requires valid { IsValid catalogue.now }
    requires meta { IsMeta catalogue.now meta.now }
    ensures factors { result.factors ≡ factors_at catalogue.now meta.now.theme }
    ensures matrix { matrix_in catalogue.now meta.now.grid meta.now.z ≡ Some result.matrix }
    ensures limits { IsWithinLimits result.matrix }
    ensures plan { IsPlan result.factors result.matrix }
    ensures place { IsMetaIn result.factors result.matrix meta.now }
{
    Layout {
        factors: factors_of(catalogue.layer_of(&meta.theme)),
        matrix: *catalogue.matrix(meta.grid, meta.z),
    }
}

/// The metatile that holds a tile of the catalogue.
pub fn block_of(catalogue: &Catalogue, address: &Address) -> MetaKey
    requires valid { IsValid catalogue.now }
    requires tile { IsTile catalogue.now address.now }
    ensures meta { result ≡ block_of catalogue.now address.now }
    ensures is_meta { IsMeta catalogue.now result }
{
    let layer = catalogue.layer_of(&address.theme);
    meta_of(address, &factors_of(layer))
}

/// The first tile of a metatile of the catalogue: the one at the upper left of its block.
pub fn first_tile(catalogue: &Catalogue, meta: &MetaKey) -> Address
    requires valid { IsValid catalogue.now }
    requires meta { IsMeta catalogue.now meta.now }
    ensures first { result ≡ first_tile catalogue.now meta.now }
    ensures tile { IsTile catalogue.now result }
    ensures block { block_of catalogue.now result ≡ meta.now }
{
    let layout = layout_of(catalogue, meta);
    Address {
        theme: meta.theme,
        grid: meta.grid,
        z: meta.z,
        row: meta.row * layout.factors.y,
        col: meta.col * layout.factors.x,
    }
}

/// The bytes of a blob of a metatile of the catalogue.
pub fn blob_size(catalogue: &Catalogue, meta: &MetaKey) -> u32
    requires valid { IsValid catalogue.now }
    requires meta { IsMeta catalogue.now meta.now }
    ensures { result ≡ blob_size catalogue.now meta.now }
{
    let layout = layout_of(catalogue, meta);
    blob_len(meta, &layout.factors, &layout.matrix)
}

/// The window of a metatile of the catalogue: the pixels that are rendered for it.
pub fn window_at(catalogue: &Catalogue, meta: &MetaKey) -> Window
    requires valid { IsValid catalogue.now }
    requires meta { IsMeta catalogue.now meta.now }
    ensures window { result ≡ window_in catalogue.now meta.now }
    ensures within { IsWindowOf catalogue.now meta.now result }
    ensures width { result.width ≤ 4224 }
    ensures height { result.height ≤ 4224 }
{
    let layout = layout_of(catalogue, meta);
    window(meta, &layout.factors, &layout.matrix)
}
