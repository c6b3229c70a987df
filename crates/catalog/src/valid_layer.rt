//! The first fault of a layer. It is tested over the grids of the catalogue, which limit the size of its metatiles.
ghost use Rattle.std.specs.List.{list_all, list_any};
ghost use Rattle.std.specs.Prelude.{◌≡◌, ◌<◌, ◌≤◌, ◌^◌, ◌*◌, ◌+◌, ◌==◌, [], length, nat_le, slice_get, IsTrue};
ghost use Rattle.catalog.specs.FirstFault.{each, grid_number_test, style_test, dimension_test, are_factors, is_small, matrices_at, are_small, layer_test};

use crate::fault::{CatalogueFault, Field};
use crate::first_fault::{each, name_test, quota_test, unless};
use crate::grid::Grid;
use crate::layer::{Dimension, Layer, Style};
use crate::named::Named;
use crate::names::within;
use crate::valid_ages::ages_test;
use matrix_geometry::Matrix;

impl Named for Layer {
    ghost name = { λ l. l.id };

    fn name(&self) -> &[u8] {
        self.id.bytes()
    }
}

/// Whether a number is one of these.
pub fn is_among(numbers: &[u32], number: u32) -> bool
    ensures { result ≡ list_any (λ n. n == number) numbers.now }
{
    numbers.iter().any(|n| *n == number)
}

#[tactic(auto, unfolding(crate::specs::FirstFault::grid_number_test))]
fn grid_number_test(
    at: u32,
    grids: &[Grid],
    before: &[u32],
    number: u32,
) -> Result<(), CatalogueFault>
    ensures { result ≡ grid_number_test at grids.now before.now number }
{
    unless(
        (number as usize) < grids.len(),
        CatalogueFault::Bad(Field::LayerGrids, at),
    )?;
    unless(
        !is_among(before, number),
        CatalogueFault::Duplicate(Field::LayerGrids, at),
    )
}

fn each_grid_number(at: u32, grids: &[Grid], numbers: &[u32]) -> Result<(), CatalogueFault>
    ensures { result ≡ each (grid_number_test at grids.now) [] numbers.now }
{
    for (i, number) in numbers.iter().enumerate() {
        grid_number_test(at, grids, &numbers[..i], *number)?;
    }
    Ok(())
}

fn each_style(styles: &[Style]) -> Result<(), CatalogueFault>
    requires { length styles.now ≤ 32 }
    ensures { result ≡ each style_test [] styles.now }
{
    each(styles)
}

fn each_dimension(dimensions: &[Dimension]) -> Result<(), CatalogueFault>
    requires { length dimensions.now ≤ 4 }
    ensures { result ≡ each dimension_test [] dimensions.now }
{
    each(dimensions)
}

/// Whether both factors of a metatile are 1 to 8.
pub fn are_factors(meta_x: u32, meta_y: u32) -> bool
    ensures { result ≡ are_factors meta_x meta_y }
{
    within(1, 8, u64::from(meta_x)) && within(1, 8, u64::from(meta_y))
}

/// The side of a metatile with its gutter, in pixels.
fn side(factor: u32, tile: u32, gutter: u32) -> u64
    requires factor { factor ≤ 8 }
    requires gutter { gutter ≤ 64 }
    ensures { result ≡ factor * tile + 2 * gutter }
{
    let pixels = u64::from(tile);
    u64::from(factor) * pixels + 2 * u64::from(gutter)
}

fn is_small_area(width: u64, height: u64) -> bool
    ensures { result ≡ nat_le (width * height) 4500000 }
{
    match width.checked_mul(height) {
        None => false,
        Some(area) => area <= 4_500_000,
    }
}

fn is_small(meta_x: u32, meta_y: u32, gutter: u32, m: Matrix) -> bool
    requires x { meta_x ≤ 8 }
    requires y { meta_y ≤ 8 }
    requires gutter { gutter ≤ 64 }
    ensures { result ≡ is_small meta_x meta_y gutter m }
{
    is_small_area(
        side(meta_x, m.tile_w, gutter),
        side(meta_y, m.tile_h, gutter),
    )
}

fn all_small(meta_x: u32, meta_y: u32, gutter: u32, matrices: &[Matrix]) -> bool
    requires x { meta_x ≤ 8 }
    requires y { meta_y ≤ 8 }
    requires gutter { gutter ≤ 64 }
    ensures { result ≡ list_all (is_small meta_x meta_y gutter) matrices.now }
{
    for matrix in matrices {
        if !is_small(meta_x, meta_y, gutter, *matrix) {
            return false;
        }
    }
    true
}

fn grid_small(grids: &[Grid], number: u32, meta_x: u32, meta_y: u32, gutter: u32) -> bool
    requires x { meta_x ≤ 8 }
    requires y { meta_y ≤ 8 }
    requires gutter { gutter ≤ 64 }
    ensures { result ≡ list_all (is_small meta_x meta_y gutter) (matrices_at (slice_get grids.now number)) }
{
    match grids.get(number as usize) {
        None => true,
        Some(grid) => all_small(meta_x, meta_y, gutter, grid.matrices.as_slice()),
    }
}

/// Whether a metatile of each matrix of these grids has few enough pixels with its gutter.
#[tactic(auto, unfolding(crate::specs::FirstFault::are_small))]
pub fn are_small(grids: &[Grid], numbers: &[u32], meta_x: u32, meta_y: u32, gutter: u32) -> bool
    requires x { meta_x ≤ 8 }
    requires y { meta_y ≤ 8 }
    requires gutter { gutter ≤ 64 }
    ensures { result ≡ are_small grids.now numbers.now meta_x meta_y gutter }
{
    for number in numbers {
        if !grid_small(grids, *number, meta_x, meta_y, gutter) {
            return false;
        }
    }
    true
}

#[tactic(auto, unfolding(crate::specs::FirstFault::layer_test))]
fn layer_test(grids: &[Grid], before: &[Layer], layer: &Layer) -> Result<(), CatalogueFault>
    requires { length before.now < 2 ^ 32 }
    ensures { result ≡ layer_test grids.now before.now layer.now }
{
    let at = before.len() as u32;
    let numbers = layer.grids.as_slice();
    let (meta_x, meta_y, gutter) = (layer.meta_x, layer.meta_y, layer.gutter);
    name_test(before, Field::LayerId, at, layer.id.bytes())?;
    unless(
        within(1, 16, numbers.len() as u64),
        CatalogueFault::Limit(Field::LayerGrids, at),
    )?;
    each_grid_number(at, grids, numbers)?;
    unless(
        within(1, 32, layer.styles.len() as u64),
        CatalogueFault::Limit(Field::Styles, at),
    )?;
    each_style(layer.styles.as_slice())?;
    unless(
        layer.dims.len() <= 4,
        CatalogueFault::Limit(Field::Dimensions, at),
    )?;
    each_dimension(layer.dims.as_slice())?;
    unless(
        are_factors(meta_x, meta_y),
        CatalogueFault::Limit(Field::Meta, at),
    )?;
    unless(gutter <= 64, CatalogueFault::Limit(Field::Gutter, at))?;
    unless(
        within(1, 1_000_000_000, layer.cell),
        CatalogueFault::Limit(Field::Cell, at),
    )?;
    quota_test(Field::LayerQuota, at, layer.quota)?;
    ages_test(at, layer.ages.as_slice())?;
    unless(
        are_small(grids, numbers, meta_x, meta_y, gutter),
        CatalogueFault::Limit(Field::Meta, at),
    )
}

/// The first fault of the layers over these grids, one after the other.
pub(crate) fn each_layer(grids: &[Grid], layers: &[Layer]) -> Result<(), CatalogueFault>
    requires { length layers.now ≤ 2 ^ 32 }
    ensures { result ≡ each (layer_test grids.now) [] layers.now }
{
    for (i, layer) in layers.iter().enumerate() {
        layer_test(grids, &layers[..i], layer)?;
    }
    Ok(())
}
