//! How a matrix is made of a span or a scale denominator, within the limits on its numbers.
ghost use Rattle.std.specs.Int.{is_positive};
ghost use Rattle.std.specs.Option.{ForSome};
ghost use Rattle.std.specs.Prelude.{◌≡◌, ◌*◌, ◌^◌, ◌≤◌, ◌*ℤ◌, ◌<ℤ◌, ◌&&◌, pos, unsigned_abs, int_div, IfOk, IfSome, IsTrue, if◌then◌else◌};
ghost use Rattle.exact_ratio.specs.Lowest.{lowest};
ghost use Rattle.matrix_geometry.specs.Limits.{IsWithinLimits};
ghost use Rattle.matrix_geometry.specs.Making.{billionths_of, coordinate_of, is_coordinate, is_corner, is_count, is_extent, is_fine_enough, is_matrix_size, is_side, is_tile_size, is_within_extent, made_of, made_of_scale, made_of_span, span_given, span_if_positive};

use crate::matrix::{Corner, Matrix, Size};
use exact_ratio::{Decimal, Ratio};

/// Why there is no matrix of these numbers.
#[derive(Clone, Copy, Debug, PartialEq, Eq)]
pub enum GridFault {
    /// A coordinate of the corner is above 10^8 units in size, or no whole number of billionths.
    CoordinateTooLarge,
    /// The span, the scale denominator or the meters in a unit are 0 or less.
    ZeroSpan,
    /// The span in lowest terms is n / d with n above 10^20 or d above 10^18.
    NumberTooFine,
    /// A side of a tile has no pixel, or more than 512.
    TileSize,
    /// There are no columns or rows, or more than 2^31.
    TooManyTiles,
    /// The matrix is wider or higher than 10^9 units.
    ExtentTooLarge,
}

const MOST_N: u128 = 100_000_000_000_000_000_000;

const MOST_D: u128 = 1_000_000_000_000_000_000;

const MOST_SIDE: u32 = 512;

const MOST_TILES: u32 = 1 << 31;

fn power_of_ten(places: u32) -> u64
    requires { places ≤ 15 }
    ensures value { result ≡ 10 ^ places }
    ensures positive { 1 ≤ result }
    ensures small { result ≤ 10 ^ 15 }
{
    10u64.pow(places)
}

fn is_coordinate(x: &Decimal) -> bool
    ensures { result ≡ is_coordinate x.now }
{
    // Below 10^18 units a product by 10^9 is below 10^27.
    let size = x.units.unsigned_abs();
    let power = u128::from(power_of_ten(x.places));
    size <= 100_000_000 * power && size * 1_000_000_000 % power == 0
}

fn is_corner(corner: &Corner) -> bool
    ensures { result ≡ is_corner corner.now }
{
    is_coordinate(&corner.x) && is_coordinate(&corner.y)
}

/// The billionths in `units / power`, which is at most 10^8 in size.
fn billionths_of_parts(units: i128, power: u64) -> i64
    requires positive { 1 ≤ power }
    requires small { power ≤ 10 ^ 15 }
    requires size { unsigned_abs units ≤ 10 ^ 8 * power }
    ensures value { result ≡ int_div (units *ℤ pos (10 ^ 9)) (pos power) }
    ensures small { unsigned_abs result ≤ 10 ^ 17 }
{
    (units * 1_000_000_000 / i128::from(power)) as i64
}

/// A coordinate in billionths of a unit.
fn billionths(x: &Decimal) -> i64
    requires { IsTrue (is_coordinate x.now) }
    ensures value { result ≡ billionths_of x.now }
    ensures small { unsigned_abs result ≤ 10 ^ 17 }
{
    billionths_of_parts(x.units, power_of_ten(x.places))
}

/// A coordinate in billionths of a unit; `None` exactly where it is above 10^8 units in size, or no whole number of
/// billionths.
pub fn coordinate(x: &Decimal) -> Option<i64>
    ensures value { result ≡ coordinate_of x.now }
    ensures small { IfSome result (λ n. unsigned_abs n ≤ 10 ^ 17) }
{
    if is_coordinate(x) {
        Some(billionths(x))
    } else {
        None
    }
}

fn is_fine_enough(span: &Ratio) -> bool
    ensures value { result ≡ is_fine_enough span.now }
    ensures positive { pos 0 <ℤ span.now.d }
{
    span.n.unsigned_abs() <= MOST_N && span.d.unsigned_abs() <= MOST_D
}

fn is_side(pixels: u32) -> bool
    ensures { result ≡ is_side pixels }
{
    0 < pixels && pixels <= MOST_SIDE
}

fn is_tile_size(tile: Size) -> bool
    ensures { result ≡ is_tile_size tile }
{
    is_side(tile.w) && is_side(tile.h)
}

fn is_count(tiles: u32) -> bool
    ensures { result ≡ is_count tiles }
{
    0 < tiles && tiles <= MOST_TILES
}

fn is_matrix_size(size: Size) -> bool
    ensures { result ≡ is_matrix_size size }
{
    is_count(size.w) && is_count(size.h)
}

/// Whether so many tiles of so many pixels each are at most 10^9 units.
fn is_extent(span: &Ratio, tiles: u32, side: u32) -> bool
    requires fine { IsTrue (is_fine_enough span.now) }
    requires tiles { IsTrue (is_count tiles) }
    requires side { IsTrue (is_side side) }
    ensures { result ≡ is_extent span.now (tiles * side) }
{
    // At most 2^40 pixels by 10^20, and 10^27.
    let pixels = u128::from(tiles) * u128::from(side);
    pixels * span.n.unsigned_abs() <= 1_000_000_000 * span.d.unsigned_abs()
}

fn is_within_extent(span: &Ratio, tile: Size, size: Size) -> bool
    requires fine { IsTrue (is_fine_enough span.now) }
    requires tile { IsTrue (is_tile_size tile) }
    requires size { IsTrue (is_matrix_size size) }
    ensures { result ≡ is_within_extent span.now tile size }
{
    is_extent(span, size.w, tile.w) && is_extent(span, size.h, tile.h)
}

/// The matrix of its parts, with no span where a number that makes it is 0 or less.
fn matrix_of_parts(
    span: Option<Ratio>,
    corner: &Corner,
    tile: Size,
    size: Size,
) -> Result<Matrix, GridFault>
    requires { ForSome span (λ s. pos 0 <ℤ s.n) }
    ensures made { result ≡ made_of span corner.now tile size }
    ensures limits { IfOk result (λ m. IsWithinLimits m) }
{
    if !is_corner(corner) {
        return Err(GridFault::CoordinateTooLarge);
    }
    let Some(span) = span else {
        return Err(GridFault::ZeroSpan);
    };
    if !is_fine_enough(&span) {
        return Err(GridFault::NumberTooFine);
    }
    if !is_tile_size(tile) {
        return Err(GridFault::TileSize);
    }
    if !is_matrix_size(size) {
        return Err(GridFault::TooManyTiles);
    }
    if !is_within_extent(&span, tile, size) {
        return Err(GridFault::ExtentTooLarge);
    }
    Ok(Matrix {
        span,
        left: billionths(&corner.x),
        top: billionths(&corner.y),
        tile_w: tile.w,
        tile_h: tile.h,
        cols: size.w,
        rows: size.h,
    })
}

fn positive(span: Ratio) -> Option<Ratio>
    ensures value { result ≡ span_if_positive span }
    ensures positive { ForSome result (λ s. pos 0 <ℤ s.n) }
{
    if span.n > 0 { Some(span) } else { None }
}

/// The standard's pixel of 0.28 mm times `scale / scale_power`, by the `meters / meters_power` of a unit.
fn span_of_parts(scale: i128, scale_power: u64, meters: i128, meters_power: u64) -> Ratio
    requires scale { pos 0 <ℤ scale }
    requires scale_small { unsigned_abs scale ≤ 10 ^ 18 }
    requires meters { pos 0 <ℤ meters }
    requires meters_small { unsigned_abs meters ≤ 10 ^ 18 }
    requires scale_power { 1 ≤ scale_power }
    requires scale_power_small { scale_power ≤ 10 ^ 15 }
    requires meters_power { 1 ≤ meters_power }
    requires meters_power_small { meters_power ≤ 10 ^ 15 }
    ensures value { result ≡ lowest
        ((scale *ℤ pos 28) *ℤ pos meters_power)
        ((pos scale_power *ℤ pos (10 ^ 5)) *ℤ meters) }
    ensures positive { pos 0 <ℤ result.n }
{
    // At most 10^18 * 28 * 10^15, and 10^15 * 10^5 * 10^18: that is 10^38, and 2^127 is above 1.7 * 10^38.
    let n = scale * 28 * i128::from(meters_power);
    let d = i128::from(scale_power) * 100_000 * meters;
    Ratio::lowest(n, d)
}

fn is_positive(x: &Decimal) -> bool
    ensures { result ≡ is_positive x.now.units }
{
    x.units > 0
}

/// The side of a pixel of the standard's 0.28 mm, in units; `None` where a number is 0 or less.
fn span_of_scale(scale: &Decimal, meters: &Decimal) -> Option<Ratio>
    ensures value { result ≡ span_given scale.now meters.now }
    ensures positive { ForSome result (λ s. pos 0 <ℤ s.n) }
{
    if !is_positive(scale) {
        return None;
    }
    if !is_positive(meters) {
        return None;
    }
    Some(span_of_parts(
        scale.units,
        power_of_ten(scale.places),
        meters.units,
        power_of_ten(meters.places),
    ))
}

impl Matrix {
    /// The matrix of a span, in units of the grid for a pixel; its size is in tiles. The first fault in the order of
    /// `GridFault` where a number is out of its limits.
    #[tactic(auto, unfolding(crate::specs::Making::made_of_span))]
    pub fn from_span(
        span: &Ratio,
        corner: &Corner,
        tile: Size,
        size: Size,
    ) -> Result<Matrix, GridFault>
        ensures made { result ≡ made_of_span span.now corner.now tile size }
        ensures limits { IfOk result (λ m. IsWithinLimits m) }
    {
        matrix_of_parts(positive(*span), corner, tile, size)
    }

    /// The matrix of a scale denominator and the meters in a unit of the grid (OGC 07-057r7, section 6.1); its size is in
    /// tiles. The first fault in the order of `GridFault` where a number is out of its limits.
    #[tactic(auto, unfolding(crate::specs::Making::made_of_scale))]
    pub fn from_scale(
        scale: &Decimal,
        meters: &Decimal,
        corner: &Corner,
        tile: Size,
        size: Size,
    ) -> Result<Matrix, GridFault>
        ensures made { result ≡ made_of_scale scale.now meters.now corner.now tile size }
        ensures limits { IfOk result (λ m. IsWithinLimits m) }
    {
        matrix_of_parts(span_of_scale(scale, meters), corner, tile, size)
    }
}
