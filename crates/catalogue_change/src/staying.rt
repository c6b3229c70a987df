//! Whether a metatile stays.
ghost use Rattle.std.specs.Prelude.{◌≡◌, ◌↔◌, true};
ghost use Rattle.catalogue_change.specs.Alike.{GridKeeps, LayerKeeps, Stays};

use crate::layers::{has_same_style, has_same_values, is_same_layer};
use crate::texts::{is_same_matrix, is_same_text};
use catalog::{Catalogue, Grid, Layer};
use matrix_geometry::Matrix;
use metatile_plan::MetaKey;

/// Whether a layer still has a metatile.
fn layer_keeps(old: &Layer, new: &Layer, meta: &MetaKey) -> bool
    ensures { (result ≡ true) ↔ LayerKeeps old.now new.now meta.now }
{
    if !is_same_layer(old, new) {
        return false;
    }
    if !new.serves(meta.grid) {
        return false;
    }
    if !has_same_style(old, new, meta.theme.style) {
        return false;
    }
    has_same_values(old, new, &meta.theme.dims)
}

/// Whether a grid still has the matrix of this number.
fn grid_keeps(old: &Grid, new: &Grid, z: u32) -> bool
    ensures { (result ≡ true) ↔ GridKeeps old.now new.now z }
{
    if !is_same_text(&old.id, &new.id) {
        return false;
    }
    is_same_at(old.matrices.as_slice(), new.matrices.as_slice(), z)
}

/// Whether the matrix of this number is the same in both lists, or neither has one.
fn is_same_at(old: &[Matrix], new: &[Matrix], z: u32) -> bool
    ensures { (result ≡ true) ↔ (Rattle.std.specs.Prelude.slice_get new.now z ≡ Rattle.std.specs.Prelude.slice_get old.now z) }
{
    match old.get(z as usize) {
        None => (z as usize) >= new.len(),
        Some(matrix) => match new.get(z as usize) {
            None => false,
            Some(other) => is_same_matrix(matrix, other),
        },
    }
}

/// Whether a metatile stays where a catalogue comes in the place of another one.
pub fn stays(from: &Catalogue, to: &Catalogue, meta: &MetaKey) -> bool
    ensures { (result ≡ true) ↔ Stays from.now to.now meta.now }
{
    if to.source != from.source {
        return false;
    }
    let Some(layer) = from.layers.get(meta.theme.layer as usize) else {
        return false;
    };
    let Some(next) = to.layers.get(meta.theme.layer as usize) else {
        return false;
    };
    if !layer_keeps(layer, next, meta) {
        return false;
    }
    let Some(grid) = from.grids.get(meta.grid as usize) else {
        return false;
    };
    let Some(after) = to.grids.get(meta.grid as usize) else {
        return false;
    };
    grid_keeps(grid, after, meta.z)
}
