//! The edges of a tile, a box on the ground, and a range of tiles.
use exact_ratio::Ratio;

/// The four edges of a tile, in units of the grid.
#[derive(Clone, Copy, PartialEq, Eq)]
pub struct TileBox {
    pub left: Ratio,
    pub right: Ratio,
    pub upper: Ratio,
    pub lower: Ratio,
}

/// A box on the ground, in billionths of a unit.
#[derive(Clone, Copy, PartialEq, Eq)]
pub struct Box9 {
    pub min_x: i64,
    pub min_y: i64,
    pub max_x: i64,
    pub max_y: i64,
}

/// Rows and columns of tiles, the first and the last of each.
#[derive(Clone, Copy, PartialEq, Eq)]
pub struct Range {
    pub row_min: u32,
    pub row_max: u32,
    pub col_min: u32,
    pub col_max: u32,
}
