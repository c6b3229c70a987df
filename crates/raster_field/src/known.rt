//! Whether a metatile is one of the catalogue.
ghost use Rattle.std.specs.Prelude.{IsTrue, ◌*◌, ◌<◌, ◌↔◌, ◌≡◌, true};
ghost use Rattle.catalog.specs.LookUp.{HasValues, values_at};
ghost use Rattle.catalog.specs.Valid.{IsLayer, IsValid};
ghost use Rattle.matrix_geometry.specs.Limits.{IsWithinLimits};
ghost use Rattle.raster_field.specs.Blocks.{IsMeta};

use catalog::{Catalogue, Layer};
use matrix_geometry::{Matrix, Theme};
use metatile_plan::MetaKey;

/// Whether the matrix has some tile of the metatile.
fn has_tile(layer: &Layer, matrix: &Matrix, meta: &MetaKey) -> bool
    requires layer { IsLayer layer.now }
    ensures { (result ≡ true) ↔ ((meta.now.row * layer.now.meta_y < matrix.now.rows) × (meta.now.col * layer.now.meta_x < matrix.now.cols)) }
{
    let top = u64::from(meta.row) * u64::from(layer.meta_y);
    let left = u64::from(meta.col) * u64::from(layer.meta_x);
    if top >= u64::from(matrix.rows) {
        return false;
    }
    left < u64::from(matrix.cols)
}

/// How many values a theme may have at a place: those of the layer's dimension there, and 0 alone where it has none there.
fn values_at(catalogue: &Catalogue, layer: u32, place: u32) -> usize
    ensures { result ≡ values_at catalogue.now layer place }
{
    match catalogue.dimension_at(layer, place) {
        Some(dimension) => dimension.values.len(),
        None => 1,
    }
}

/// Whether the number at each place of a theme is that of a value.
fn has_values(catalogue: &Catalogue, theme: &Theme) -> bool
    ensures { (result ≡ true) ↔ HasValues catalogue.now theme.now }
{
    let layer = theme.layer;
    for (place, number) in theme.dims.iter().enumerate() {
        if *number as usize >= values_at(catalogue, layer, place as u32) {
            return false;
        }
    }
    true
}

/// Whether a metatile is one of the catalogue: its layer is served on its grid, its style and its values are the layer's, and
/// the matrix has some tile of it.
pub fn is_meta(catalogue: &Catalogue, meta: &MetaKey) -> bool
    requires { IsValid catalogue.now }
    ensures { (result ≡ true) ↔ IsMeta catalogue.now meta.now }
{
    let Some(layer) = catalogue.layers.get(meta.theme.layer as usize) else {
        return false;
    };
    if !layer.serves(meta.grid) {
        return false;
    }
    let Some(_) = layer.styles.get(meta.theme.style as usize) else {
        return false;
    };
    if !has_values(catalogue, &meta.theme) {
        return false;
    }
    let Some(matrix) = catalogue.matrix_in(meta.grid, meta.z) else {
        return false;
    };
    has_tile(layer, matrix, meta)
}
