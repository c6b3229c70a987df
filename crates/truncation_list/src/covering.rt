//! Whether a cover is for a tile, or for some tile of a block.
ghost use Rattle.std.specs.Prelude.{IsTrue, ◌≡◌, ◌↔◌, IfSome};
ghost use Rattle.matrix_geometry.specs.Limits.{IsReachable, IsWithinLimits};
ghost use Rattle.matrix_geometry.specs.Ranges.{is_in_range};
ghost use Rattle.truncation_list.specs.Covers.{CoversSome, IsWithinReach, covers, has_tile, hits, is_in_bounds, is_in_zoom, meets, meets_bounds};

use crate::block::Block;
use crate::cover::Cover;
use matrix_geometry::{Address, Box9, Matrix, Range};

fn is_in_zoom(cover: &Cover, z: u32) -> bool
    ensures { result ≡ is_in_zoom cover.now z }
{
    cover.z_start <= z && z <= cover.z_stop
}

fn is_in_range(range: Range, row: u32, col: u32) -> bool
    ensures { result ≡ is_in_range range row col }
{
    range.row_min <= row && row <= range.row_max && range.col_min <= col && col <= range.col_max
}

fn is_in_bounds(bounds: Option<Box9>, m: &Matrix, row: u32, col: u32) -> bool
    requires limits { IsWithinLimits m.now }
    requires reachable { IfSome bounds IsReachable }
    ensures { result ≡ is_in_bounds bounds m.now row col }
{
    match bounds {
        None => true,
        Some(b) => match m.tiles_of_box(&b) {
            None => false,
            Some(range) => is_in_range(range, row, col),
        },
    }
}

/// Whether the cover is for a tile; `m` is the tile's matrix.
pub fn covers(cover: &Cover, m: &Matrix, a: &Address) -> bool
    requires limits { IsWithinLimits m.now }
    requires reachable { IsWithinReach cover.now }
    ensures { result ≡ covers cover.now m.now a.now }
{
    // The box is the costly test, so it comes last.
    cover.layer == a.theme.layer
        && cover.grid == a.grid
        && is_in_zoom(cover, a.z)
        && cover.filter.admits(&a.theme)
        && is_in_bounds(cover.bounds, m, a.row, a.col)
}

fn has_tile(tiles: Range) -> bool
    ensures { result ≡ has_tile tiles }
{
    tiles.row_min <= tiles.row_max && tiles.col_min <= tiles.col_max
}

fn meets(a: Range, b: Range) -> bool
    ensures { result ≡ meets a b }
{
    has_tile(Range {
        row_min: a.row_min.max(b.row_min),
        row_max: a.row_max.min(b.row_max),
        col_min: a.col_min.max(b.col_min),
        col_max: a.col_max.min(b.col_max),
    })
}

fn meets_bounds(bounds: Option<Box9>, m: &Matrix, tiles: Range) -> bool
    requires limits { IsWithinLimits m.now }
    requires reachable { IfSome bounds IsReachable }
    ensures { result ≡ meets_bounds bounds m.now tiles }
{
    match bounds {
        None => has_tile(tiles),
        Some(b) => match m.tiles_of_box(&b) {
            None => false,
            Some(range) => meets(range, tiles),
        },
    }
}

/// Whether the cover is for some tile of a block; `m` is the block's matrix. No tile is gone through.
pub fn hits(cover: &Cover, m: &Matrix, block: &Block) -> bool
    requires limits { IsWithinLimits m.now }
    requires reachable { IsWithinReach cover.now }
    ensures value { result ≡ hits cover.now m.now block.now }
    ensures tiles { IsTrue result ↔ CoversSome cover.now m.now block.now }
{
    cover.layer == block.theme.layer
        && cover.grid == block.grid
        && is_in_zoom(cover, block.z)
        && meets_bounds(cover.bounds, m, block.tiles)
        && cover.filter.admits(&block.theme)
}
