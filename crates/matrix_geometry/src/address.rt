//! The address of a tile.
use crate::theme::Theme;

/// One tile: its theme, its grid, the number of its matrix in the grid, and its place in the matrix (OGC 07-057r7,
/// section 6). Row 0, column 0 is the top left tile.
#[derive(Clone, Copy, PartialEq, Eq, PartialOrd, Ord)]
pub struct Address {
    pub theme: Theme,
    pub grid: u32,
    pub z: u32,
    pub row: u32,
    pub col: u32,
}
