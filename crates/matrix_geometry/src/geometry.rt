//! The edges of a tile, and the tiles of a box with a tolerance of a millionth of a tile, by exact fractions.
ghost use Rattle.std.specs.Int.{int_div_euclid};
ghost use Rattle.std.specs.Prelude.{◌≡◌, ◌*◌, ◌<◌, ◌≤◌, ◌^◌, ◌+ℤ◌, ◌-ℤ◌, ◌*ℤ◌, ◌<ℤ◌, pos, IfSome, unsigned_abs};
ghost use Rattle.exact_ratio.specs.Fractions.{lowest_terms};
ghost use Rattle.exact_ratio.specs.Lowest.{lowest};
ghost use Rattle.matrix_geometry.specs.Away.{tiles_away};
ghost use Rattle.matrix_geometry.specs.Geometry.{box_of, cols_of, cut_to, left_edge, range_of, rows_of, upper_edge};
ghost use Rattle.matrix_geometry.specs.Limits.{IsReachable, IsWithinLimits};
ghost use Rattle.matrix_geometry.specs.Ranges.{AreTilesOf, IsRangeOf};

use crate::boxes::{Box9, Range, TileBox};
use crate::matrix::Matrix;
use exact_ratio::{Ratio, floor_div};

/// A millionth of a tile, in billionths of a tile.
const EPS: i128 = 1_000;

/// `corner / 10^9 + pixels * n / d` over the common denominator `10^9 * d`.
fn edge_numerator(corner: i128, pixels: i128, n: i128, d: i128) -> i128
    requires corner { unsigned_abs corner ≤ 10 ^ 17 }
    requires d { unsigned_abs d ≤ 10 ^ 18 }
    requires extent { unsigned_abs pixels * unsigned_abs n ≤ 10 ^ 9 * unsigned_abs d }
    ensures value { result ≡ (corner *ℤ d) +ℤ ((pixels *ℤ n) *ℤ pos (10 ^ 9)) }
    ensures small { unsigned_abs result ≤ 2 * 10 ^ 36 }
{
    // The first product is at most 10^17 * 10^18, the second one 10^27, and the third one 10^36.
    corner * d + pixels * n * 1_000_000_000
}

/// The edge that lies so many pixels past a corner in billionths of a unit.
fn edge(corner: i64, pixels: i128, span: &Ratio) -> Ratio
    requires corner { unsigned_abs corner ≤ 10 ^ 17 }
    requires d_positive { pos 0 <ℤ span.now.d }
    requires d { unsigned_abs span.now.d ≤ 10 ^ 18 }
    requires extent { unsigned_abs pixels * unsigned_abs span.now.n ≤ 10 ^ 9 * unsigned_abs span.now.d }
    ensures { result ≡ lowest
        ((corner *ℤ span.now.d) +ℤ ((pixels *ℤ span.now.n) *ℤ pos (10 ^ 9)))
        (pos (10 ^ 9) *ℤ span.now.d) }
{
    let n = edge_numerator(i128::from(corner), pixels, span.n, span.d);
    Ratio::lowest(n, 1_000_000_000 * span.d)
}

/// The numerator of a tile's width or height, whose denominator is that of the span.
fn tile_numerator(side: u32, span: &Ratio) -> i128
    requires side { 1 ≤ side }
    requires side_most { side ≤ 512 }
    requires n_positive { pos 0 <ℤ span.now.n }
    requires n { unsigned_abs span.now.n ≤ 10 ^ 20 }
    ensures value { result ≡ pos side *ℤ span.now.n }
    ensures positive { pos 0 <ℤ result }
    ensures small { unsigned_abs result ≤ 10 ^ 23 }
{
    i128::from(side) * span.n
}

/// The floor of a distance in billionths of a unit over tiles of `tile / d` units, and of so many billionths of a tile
/// more.
fn floor_of_parts(distance: i128, tile: i128, d: i128, more: i128) -> i128
    requires distance { unsigned_abs distance ≤ 2 * 10 ^ 17 }
    requires positive { pos 0 <ℤ tile }
    requires tile { unsigned_abs tile ≤ 10 ^ 23 }
    requires d { unsigned_abs d ≤ 10 ^ 18 }
    requires more { unsigned_abs more ≤ 1000 }
    ensures { result ≡ int_div_euclid ((distance *ℤ d) +ℤ (more *ℤ tile)) (pos (10 ^ 9) *ℤ tile) }
{
    // The first product is at most 2 * 10^17 * 10^18, the second one 10^26, and the denominator 10^32.
    floor_div(distance * d + more * tile, 1_000_000_000 * tile)
}

/// The floor of a distance in tiles, and of so many billionths of a tile more. The distance is in billionths of a unit.
fn tiles_away(distance: i128, side: u32, span: &Ratio, more: i128) -> i128
    requires distance { unsigned_abs distance ≤ 2 * 10 ^ 17 }
    requires side { 1 ≤ side }
    requires side_most { side ≤ 512 }
    requires n_positive { pos 0 <ℤ span.now.n }
    requires n { unsigned_abs span.now.n ≤ 10 ^ 20 }
    requires d { unsigned_abs span.now.d ≤ 10 ^ 18 }
    requires more { unsigned_abs more ≤ 1000 }
    ensures { result ≡ tiles_away distance side span.now more }
{
    floor_of_parts(distance, tile_numerator(side, span), span.d, more)
}

/// How far a place lies past another one, in billionths of a unit.
fn distance(from: i64, to: i64) -> i128
    requires from { unsigned_abs from ≤ 10 ^ 17 }
    requires to { unsigned_abs to ≤ 10 ^ 17 }
    ensures value { result ≡ to -ℤ from }
    ensures small { unsigned_abs result ≤ 2 * 10 ^ 17 }
{
    i128::from(to) - i128::from(from)
}

/// The first and the last column or row of so many, cut to them; `None` where the first lies after the last.
fn cut(least: i128, greatest: i128, count: u32) -> Option<(u32, u32)>
    requires { 1 ≤ count }
    ensures { result ≡ cut_to least greatest count }
{
    let first = least.max(0);
    let last = greatest.min(i128::from(count) - 1);
    if last < first {
        return None;
    }
    Some((first as u32, last as u32))
}

impl Matrix {
    fn left_edge(&self, col: u64) -> Ratio
        requires limits { IsWithinLimits self.now }
        requires col { col ≤ self.now.cols }
        ensures { result ≡ lowest_terms (left_edge self.now col) }
    {
        let pixels = col * u64::from(self.tile_w);
        edge(self.left, i128::from(pixels), &self.span)
    }

    fn upper_edge(&self, row: u64) -> Ratio
        requires limits { IsWithinLimits self.now }
        requires row { row ≤ self.now.rows }
        ensures { result ≡ lowest_terms (upper_edge self.now row) }
    {
        let pixels = row * u64::from(self.tile_h);
        edge(self.top, -i128::from(pixels), &self.span)
    }

    /// The four edges of a tile, in units of the grid (OGC 07-057r7, section 6.1).
    pub fn tile_box(&self, row: u32, col: u32) -> TileBox
        requires limits { IsWithinLimits self.now }
        requires row { row < self.now.rows }
        requires col { col < self.now.cols }
        ensures { result ≡ box_of self.now row col }
    {
        TileBox {
            left: self.left_edge(u64::from(col)),
            right: self.left_edge(u64::from(col) + 1),
            upper: self.upper_edge(u64::from(row)),
            lower: self.upper_edge(u64::from(row) + 1),
        }
    }

    fn cols_of_box(&self, b: &Box9) -> Option<(u32, u32)>
        requires limits { IsWithinLimits self.now }
        requires reachable { IsReachable b.now }
        ensures { result ≡ cols_of self.now b.now }
    {
        let to_left = distance(self.left, b.min_x);
        let to_right = distance(self.left, b.max_x);
        cut(
            tiles_away(to_left, self.tile_w, &self.span, EPS),
            tiles_away(to_right, self.tile_w, &self.span, -EPS),
            self.cols,
        )
    }

    fn rows_of_box(&self, b: &Box9) -> Option<(u32, u32)>
        requires limits { IsWithinLimits self.now }
        requires reachable { IsReachable b.now }
        ensures { result ≡ rows_of self.now b.now }
    {
        let to_top = distance(b.max_y, self.top);
        let to_bottom = distance(b.min_y, self.top);
        cut(
            tiles_away(to_top, self.tile_h, &self.span, EPS),
            tiles_away(to_bottom, self.tile_h, &self.span, -EPS),
            self.rows,
        )
    }

    /// The tiles of a box, found by exact fractions; `None` exactly where it has none.
    pub fn tiles_of_box(&self, b: &Box9) -> Option<Range>
        requires limits { IsWithinLimits self.now }
        requires reachable { IsReachable b.now }
        ensures range { result ≡ range_of self.now b.now }
        ensures inside { IfSome result (λ r. IsRangeOf self.now r) }
        ensures tiles { AreTilesOf self.now b.now result }
    {
        let (row_min, row_max) = self.rows_of_box(b)?;
        let (col_min, col_max) = self.cols_of_box(b)?;
        Some(Range {
            row_min,
            row_max,
            col_min,
            col_max,
        })
    }
}
