//! The block and the window of a metatile.
ghost use Rattle.std.specs.Prelude.{min, ◌+◌, ◌-◌, ◌*◌, ◌<◌, ◌≡◌, ◌≤◌};
ghost use Rattle.matrix_geometry.specs.Limits.{IsWithinLimits};
ghost use Rattle.metatile_plan.specs.Plan.{IsBlockOf, IsMetaIn, IsPlan, IsWindowOn, meta_of, tiles_of, window_of};

use crate::metatile::{Factors, MetaKey};
use crate::windows::Window;
use matrix_geometry::{Address, Matrix, Range};

/// The metatile that holds a tile.
pub fn meta_of(address: &Address, f: &Factors) -> MetaKey
    requires x { 1 ≤ f.now.x }
    requires y { 1 ≤ f.now.y }
    ensures { result ≡ meta_of f.now address.now }
{
    MetaKey {
        theme: address.theme,
        grid: address.grid,
        z: address.z,
        row: address.row / f.y,
        col: address.col / f.x,
    }
}

/// The tiles of a metatile: its block, cut to the matrix.
pub fn tiles_of(meta: &MetaKey, f: &Factors, m: &Matrix) -> Range
    requires limits { IsWithinLimits m.now }
    requires plan { IsPlan f.now m.now }
    requires meta { IsMetaIn f.now m.now meta.now }
    ensures range { result ≡ tiles_of f.now m.now meta.now }
    ensures block { IsBlockOf f.now m.now result }
{
    let row_min = meta.row * f.y;
    let col_min = meta.col * f.x;
    Range {
        row_min,
        row_max: (row_min + f.y).min(m.rows) - 1,
        col_min,
        col_max: (col_min + f.x).min(m.cols) - 1,
    }
}

/// The pixels that a window has across, or downwards.
#[derive(Clone, Copy)]
struct Side {
    from: u64,
    length: u32,
}

/// The pixels of the tiles `first` to `last` of so many of a side each, with the gutter, cut to the matrix.
fn side_of(first: u32, last: u32, count: u32, tile: u32, gutter: u32) -> Side
    requires order { first ≤ last }
    requires few { last < first + 8 }
    requires within { last < count }
    requires tile { tile ≤ 512 }
    requires gutter { gutter ≤ 64 }
    ensures from { result.from ≡ first * tile - gutter }
    ensures length { result.length ≡ min ((last + 1) * tile + gutter) (count * tile) - (first * tile - gutter) }
{
    let (tile, gutter) = (u64::from(tile), u64::from(gutter));
    let from = (u64::from(first) * tile).saturating_sub(gutter);
    let end = ((u64::from(last) + 1) * tile + gutter).min(u64::from(count) * tile);
    Side {
        from,
        length: (end - from) as u32,
    }
}

/// The pixels that are rendered for a metatile: those of its block with the gutter, cut to the matrix.
pub fn window(meta: &MetaKey, f: &Factors, m: &Matrix) -> Window
    requires limits { IsWithinLimits m.now }
    requires plan { IsPlan f.now m.now }
    requires meta { IsMetaIn f.now m.now meta.now }
    ensures window { result ≡ window_of f.now m.now meta.now }
    ensures on { IsWindowOn m.now (tiles_of f.now m.now meta.now) result }
{
    let tiles = tiles_of(meta, f, m);
    let across = side_of(tiles.col_min, tiles.col_max, m.cols, m.tile_w, f.gutter);
    let down = side_of(tiles.row_min, tiles.row_max, m.rows, m.tile_h, f.gutter);
    Window {
        meta: *meta,
        x: across.from,
        y: down.from,
        width: across.length,
        height: down.length,
    }
}
