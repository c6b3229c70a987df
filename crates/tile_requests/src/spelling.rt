//! The spellings in which a tile is answered.

/// How a tile is spelt in a response.
#[derive(Clone, Copy, PartialEq, Eq)]
pub enum Spelling {
    /// The binary pixmap that the encoded tile is.
    Ppm,
    /// The same pixels as PNG.
    Png,
}
