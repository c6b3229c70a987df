//! What the hot tier holds, and by what it is found.
use base::SharedText;
use matrix_geometry::Theme;

/// A tile, by which its text is found: what its address says.
#[derive(Clone, Copy, PartialEq, Eq, Hash)]
pub struct TileKey {
    pub theme: Theme,
    pub grid: u32,
    pub z: u32,
    pub row: u32,
    pub col: u32,
}

/// The text of a tile, which whoever is answered with it shares, and the number of the render of which it is.
#[derive(Drop)]
pub struct HotText {
    pub number: u64,
    pub text: SharedText,
}
