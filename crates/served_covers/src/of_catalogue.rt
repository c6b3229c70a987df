//! Whether a cover is of a catalogue, field by field.
ghost use Rattle.std.specs.Prelude.{◌≡◌, ◌↔◌, ◌<◌, ◌≤◌, ◌^◌, ℕ, true, length, slice_get, unsigned_abs, Contains, IfSome, IsSomeAnd, Option, Some};
ghost use Rattle.matrix_geometry.specs.Limits.{IsReachable};
ghost use Rattle.served_covers.specs.OfCatalogue.{HasWanted, IsCoverOf};

use catalog::Catalogue;
use matrix_geometry::Box9;
use truncation_list::Cover;

/// The farthest that an edge of a box may lie from 0, in billionths of a unit: 10^8 units.
const REACH: u64 = 100_000_000_000_000_000;

fn is_served(catalogue: &Catalogue, layer: u32, grid: u32) -> bool
    ensures { (result ≡ true) ↔ IsSomeAnd (slice_get catalogue.now.layers layer) (λ l. Contains l.grids grid) }
{
    match catalogue.layers.get(layer as usize) {
        Some(layer) => layer.serves(grid),
        None => false,
    }
}

fn has_style(catalogue: &Catalogue, layer: u32, style: Option<u32>) -> bool
    ensures { (result ≡ true) ↔ IfSome style (λ style. IsSomeAnd (slice_get catalogue.now.layers layer) (λ l. style < length l.styles)) }
{
    let Some(style) = style else {
        return true;
    };
    match catalogue.layers.get(layer as usize) {
        Some(layer) => (style as usize) < layer.styles.len(),
        None => false,
    }
}

/// Whether the layer's dimension at this place has the value that is wanted of it, where one is.
fn has_value(catalogue: &Catalogue, layer: u32, place: u32, value: Option<u32>) -> bool
    ensures { (result ≡ true) ↔ HasWanted catalogue.now layer place value }
{
    let Some(number) = value else {
        return true;
    };
    match catalogue.dimension_at(layer, place) {
        Some(dimension) => (number as usize) < dimension.values.len(),
        None => false,
    }
}

/// Whether the layer's dimensions have what is wanted of them.
fn has_values(catalogue: &Catalogue, layer: u32, values: &[Option<u32>]) -> bool
    requires { length values.now ≤ 4 }
    ensures { (result ≡ true) ↔ ((place : ℕ) (wanted : Option ℕ) → slice_get values.now place ≡ Some wanted → HasWanted catalogue.now layer place wanted) }
{
    for (place, value) in values.iter().enumerate() {
        if !has_value(catalogue, layer, place as u32, *value) {
            return false;
        }
    }
    true
}

fn is_near(edge: i64) -> bool
    ensures { (result ≡ true) ↔ (unsigned_abs edge ≤ 10 ^ 17) }
{
    edge.unsigned_abs() <= REACH
}

fn is_reachable(bounds: &Box9) -> bool
    ensures { (result ≡ true) ↔ IsReachable bounds.now }
{
    is_near(bounds.min_x) && is_near(bounds.min_y) && is_near(bounds.max_x) && is_near(bounds.max_y)
}

fn is_within_reach(bounds: Option<Box9>) -> bool
    ensures { (result ≡ true) ↔ IfSome bounds IsReachable }
{
    match bounds {
        Some(bounds) => is_reachable(&bounds),
        None => true,
    }
}

/// Whether a cover is of the catalogue: its grid is one of its layer's, both ends of its zoom range are matrices of that grid,
/// its filter's style is one of the layer's, each value of its filter stands at a dimension of the layer and is one of the
/// dimension's, and its box is within reach.
pub fn is_cover_of(catalogue: &Catalogue, cover: &Cover) -> bool
    ensures { (result ≡ true) ↔ IsCoverOf catalogue.now cover.now }
{
    if !is_served(catalogue, cover.layer, cover.grid) {
        return false;
    }
    let Some(_) = catalogue.matrix_in(cover.grid, cover.z_start) else {
        return false;
    };
    let Some(_) = catalogue.matrix_in(cover.grid, cover.z_stop) else {
        return false;
    };
    if !has_style(catalogue, cover.layer, cover.filter.style) {
        return false;
    }
    if !has_values(catalogue, cover.layer, &cover.filter.dims) {
        return false;
    }
    is_within_reach(cover.bounds)
}
