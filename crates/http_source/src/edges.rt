//! The edges of a window, in units of the grid, as decimal texts.
ghost use Rattle.std.specs.Prelude.{◌≡◌, ◌*◌, ◌≤◌, ◌^◌, ◌+ℤ◌, ◌*ℤ◌, ◌<ℤ◌, pos, neg_ℤ, unsigned_abs, IfOk};
ghost use Rattle.http_source.specs.Edges.{edge, pixel_left, pixel_top};
ghost use Rattle.matrix_geometry.specs.Limits.{IsWithinLimits};
ghost use Rattle.window_request.specs.Decimals.{IsDecimalOf};

use exact_ratio::Ratio;
use matrix_geometry::Matrix;
use std::alloc::{AllocError, Global};
use window_request::decimal_text;

/// `corner / 10^9 + pixels * n / d` over the common denominator `10^9 * d`.
fn numerator(corner: i128, pixels: i128, n: i128, d: i128) -> i128
    requires corner { unsigned_abs corner ≤ 10 ^ 17 }
    requires d { unsigned_abs d ≤ 10 ^ 18 }
    requires extent { unsigned_abs pixels * unsigned_abs n ≤ 10 ^ 9 * unsigned_abs d }
    ensures value { result ≡ (corner *ℤ d) +ℤ ((pixels *ℤ n) *ℤ pos (10 ^ 9)) }
    ensures small { unsigned_abs result ≤ 2 * 10 ^ 18 * unsigned_abs d }
    ensures fits { unsigned_abs result ≤ 2 * 10 ^ 36 }
{
    // The first product is at most 10^17 * 10^18, the second one 10^27, and the third one 10^36.
    corner * d + pixels * n * 1_000_000_000
}

/// The text of the edge that lies so many pixels past a corner in billionths of a unit.
fn edge_text(alloc: Global, corner: i64, pixels: i128, span: &Ratio) -> Result<Vec<u8>, AllocError>
    requires corner { unsigned_abs corner ≤ 10 ^ 17 }
    requires d_positive { pos 0 <ℤ span.now.d }
    requires d { unsigned_abs span.now.d ≤ 10 ^ 18 }
    requires extent { unsigned_abs pixels * unsigned_abs span.now.n ≤ 10 ^ 9 * unsigned_abs span.now.d }
    ensures { IfOk result (λ text. IsDecimalOf (edge corner pixels span.now) text.items) }
{
    let n = numerator(i128::from(corner), pixels, span.n, span.d);
    decimal_text(alloc, n, 1_000_000_000 * span.d.unsigned_abs())
}

/// The text of the edge so many pixels to the right of the left edge of a matrix.
pub(crate) fn left_text(alloc: Global, matrix: &Matrix, x: u64) -> Result<Vec<u8>, AllocError>
    requires limits { IsWithinLimits matrix.now }
    requires within { x ≤ matrix.now.cols * matrix.now.tile_w }
    ensures { IfOk result (λ text. IsDecimalOf (pixel_left matrix.now x) text.items) }
{
    edge_text(alloc, matrix.left, i128::from(x), &matrix.span)
}

/// The text of the edge so many pixels below the upper edge of a matrix.
pub(crate) fn top_text(alloc: Global, matrix: &Matrix, y: u64) -> Result<Vec<u8>, AllocError>
    requires limits { IsWithinLimits matrix.now }
    requires within { y ≤ matrix.now.rows * matrix.now.tile_h }
    ensures { IfOk result (λ text. IsDecimalOf (pixel_top matrix.now y) text.items) }
{
    edge_text(alloc, matrix.top, -i128::from(y), &matrix.span)
}
