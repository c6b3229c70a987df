//! The types of a tile matrix, of its corner and of a size.
use exact_ratio::{Decimal, Ratio};

/// A matrix of tiles (OGC 07-057r7, section 6).
#[derive(Clone, Copy, PartialEq, Eq)]
pub struct Matrix {
    /// The width and height of a pixel, in units of the grid.
    pub span: Ratio,
    /// The left edge, in billionths of a unit.
    pub left: i64,
    /// The upper edge, in billionths of a unit.
    pub top: i64,
    /// The width of a tile, in pixels.
    pub tile_w: u32,
    /// The height of a tile, in pixels.
    pub tile_h: u32,
    /// How many columns of tiles there are.
    pub cols: u32,
    /// How many rows of tiles there are.
    pub rows: u32,
}

/// The top left corner of a matrix, in units of the grid.
#[derive(Clone, Copy, PartialEq, Eq)]
pub struct Corner {
    pub x: Decimal,
    pub y: Decimal,
}

/// A width and a height, of a tile in pixels or of a matrix in tiles.
#[derive(Clone, Copy, PartialEq, Eq)]
pub struct Size {
    pub w: u32,
    pub h: u32,
}
