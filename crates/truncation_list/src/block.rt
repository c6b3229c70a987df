//! The type of a block of tiles.
use matrix_geometry::{Range, Theme};

/// A block of tiles: those of one theme, grid and matrix in a range of rows and columns.
#[derive(Clone, Copy, PartialEq, Eq)]
pub struct Block {
    pub theme: Theme,
    pub grid: u32,
    /// The number of the matrix in the grid.
    pub z: u32,
    pub tiles: Range,
}
