//! The values of the pixels of a numbered picture.
ghost use Rattle.std.specs.Prelude.{◌≡◌, ◌+◌, ◌*◌, ◌^◌, ◌<◌, ◌≤◌, length};
ghost use Rattle.catalog.specs.Valid.{IsLayer, IsValid};
ghost use Rattle.matrix_geometry.specs.Limits.{IsWithinLimits};
ghost use Rattle.raster_field.specs.Blocks.{IsMeta};
ghost use Rattle.raster_field.specs.Fields.{IsPixel, field_value};
ghost use Rattle.raster_field.specs.Picture.{cell_at, shade_of, weighted};

use catalog::{Catalogue, Layer};
use matrix_geometry::{Matrix, Theme};
use metatile_plan::MetaKey;

fn wide(number: u32) -> u128
    ensures value { result ≡ number }
    ensures bound { result < 2 ^ 32 }
{
    u128::from(number)
}

fn weighted_sum(dims: &[u32]) -> u128
    requires { length dims.now ≤ 4 }
    ensures value { result ≡ weighted 1 dims.now }
    ensures bound { result < 2 ^ 40 }
{
    let mut sum: u128 = 0;
    let mut weight: u128 = 1;
    for value in dims {
        sum += weight * u128::from(*value);
        weight += 1;
    }
    sum
}

/// What all pixels of a picture have in common.
pub fn shade_of(source: u32, number: u64, theme: &Theme) -> u128
    ensures value { result ≡ shade_of source number theme.now }
    ensures bound { result < 2 ^ 80 }
{
    let dims = weighted_sum(&theme.dims);
    u128::from(source) + 7 * u128::from(number) + 31 * wide(theme.layer) + 131 * dims
}

/// How far a pixel's middle is from the edge, in half pixels, times the numerator of a pixel's span.
fn half_pixels(x: u64, numerator: u128) -> u128
    requires x { x < 2 ^ 41 }
    requires numerator { numerator ≤ 10 ^ 20 }
    ensures value { result ≡ (2 * x + 1) * numerator }
    ensures bound { result < 2 ^ 112 }
{
    (2 * u128::from(x) + 1) * numerator
}

/// How many of these there are in a cell: two halves for each part of a unit that the span's denominator counts.
fn halves_in(cell: u64, denominator: u128) -> u128
    requires cell { 1 ≤ cell }
    requires cell_most { cell ≤ 10 ^ 9 }
    requires denominator { 1 ≤ denominator }
    requires denominator_most { denominator ≤ 10 ^ 18 }
    ensures value { result ≡ 2 * denominator * cell }
    ensures some { 0 < result }
{
    2 * denominator * u128::from(cell)
}

/// The ground cell of a pixel's column, or of its row.
pub fn cell_at(matrix: &Matrix, layer: &Layer, x: u64) -> u128
    requires matrix { IsWithinLimits matrix.now }
    requires layer { IsLayer layer.now }
    requires x { x < 2 ^ 41 }
    ensures value { result ≡ cell_at matrix.now.span layer.now.cell x }
    ensures bound { result < 2 ^ 112 }
{
    let n = matrix.span.n.unsigned_abs();
    let d = matrix.span.d.unsigned_abs();
    half_pixels(x, n) / halves_in(layer.cell, d)
}

/// The value of a pixel of the whole matrix of a metatile, in the picture of a source and a render.
#[tactic(auto, using(catalog::proofs::Found::some_told))]
pub fn field_value(
    catalogue: &Catalogue,
    id: u32,
    number: u64,
    meta: &MetaKey,
    x: u64,
    y: u64,
) -> u8
    requires valid { IsValid catalogue.now }
    requires meta { IsMeta catalogue.now meta.now }
    requires pixel { IsPixel catalogue.now meta.now x y }
    ensures { result ≡ field_value catalogue.now id number meta.now x y }
{
    let matrix = catalogue.matrix(meta.grid, meta.z);
    let layer = catalogue.layer_of(&meta.theme);
    let across = cell_at(matrix, layer, x);
    let down = cell_at(matrix, layer, y);
    ((shade_of(id, number, &meta.theme) + 17 * across + 13 * down) % 256) as u8
}
