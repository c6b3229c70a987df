//! The type of a metatile's window of pixels.
use crate::metatile::MetaKey;

/// The pixels that are rendered for a metatile: its block with the gutter, cut to the matrix. `x` and `y` count from the
/// top left pixel of the matrix.
#[derive(Clone, Copy, PartialEq, Eq)]
pub struct Window {
    pub meta: MetaKey,
    pub x: u64,
    pub y: u64,
    pub width: u32,
    pub height: u32,
}
