//! The key of a metatile, and the factors by which tiles are gathered into metatiles.
use matrix_geometry::Theme;

/// How the tiles of a layer are gathered into metatiles.
#[derive(Clone, Copy, PartialEq, Eq)]
pub struct Factors {
    /// How many tiles a metatile has across, 1 to 8.
    pub x: u32,
    /// How many tiles a metatile has downwards, 1 to 8.
    pub y: u32,
    /// How many pixels are rendered round it and cut away, 0 to 64.
    pub gutter: u32,
}

/// One metatile: its theme, its grid, the number of its matrix in the grid, and its place among the metatiles of the
/// matrix. Keys are ordered field by field.
#[derive(Clone, Copy, PartialEq, Eq, PartialOrd, Ord, Hash)]
pub struct MetaKey {
    pub theme: Theme,
    pub grid: u32,
    pub z: u32,
    pub row: u32,
    pub col: u32,
}
