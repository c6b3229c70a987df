//! Where encoded tiles stand in a blob.
ghost use Rattle.std.specs.Prelude.{decimal, length, ◌+◌, ◌<◌, ◌≡◌, ◌≤◌};
ghost use Rattle.matrix_geometry.specs.Limits.{IsWithinLimits};
ghost use Rattle.metatile_plan.specs.Plan.{IsIn, IsMetaIn, IsPlan, tiles_of};
ghost use Rattle.metatile_plan.specs.Texts.{blob_len, span_of, tile_len};

use crate::metatile::{Factors, MetaKey};
use crate::plan::tiles_of;
use crate::span::Span;
use itoa::Buffer;
use matrix_geometry::Matrix;

/// How many digits a number has.
fn digits(number: u32) -> u32
    requires { number ≤ 512 }
    ensures value { result ≡ length (decimal number) }
    ensures few { result ≤ 3 }
{
    let mut buffer = Buffer::new();
    buffer.format(number).len() as u32
}

/// The bytes of one encoded tile.
pub fn tile_len(m: &Matrix) -> u32
    requires { IsWithinLimits m.now }
    ensures value { result ≡ tile_len m.now }
    ensures small { result ≤ 1000000 }
{
    9 + digits(m.tile_w) + digits(m.tile_h) + 3 * m.tile_w * m.tile_h
}

/// The bytes of the blob of a metatile.
pub fn blob_len(meta: &MetaKey, f: &Factors, m: &Matrix) -> u32
    requires limits { IsWithinLimits m.now }
    requires plan { IsPlan f.now m.now }
    requires meta { IsMetaIn f.now m.now meta.now }
    ensures { result ≡ blob_len f.now m.now meta.now }
{
    let tiles = tiles_of(meta, f, m);
    let across = tiles.col_max + 1 - tiles.col_min;
    let down = tiles.row_max + 1 - tiles.row_min;
    across * down * tile_len(m)
}

/// Where an encoded tile stands in the blob of its metatile.
pub fn tile_span_in_blob(meta: &MetaKey, f: &Factors, m: &Matrix, row: u32, col: u32) -> Span
    requires limits { IsWithinLimits m.now }
    requires plan { IsPlan f.now m.now }
    requires meta { IsMetaIn f.now m.now meta.now }
    requires tile { IsIn (tiles_of f.now m.now meta.now) row col }
    ensures span { result ≡ span_of f.now m.now meta.now row col }
    ensures inside { result.start + result.length ≤ blob_len f.now m.now meta.now }
{
    let tiles = tiles_of(meta, f, m);
    let across = tiles.col_max + 1 - tiles.col_min;
    let place = (row - tiles.row_min) * across + (col - tiles.col_min);
    let length = tile_len(m);
    Span {
        start: place * length,
        length,
    }
}
