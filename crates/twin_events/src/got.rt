//! What getting a tile comes to.
use cache_core::Tile;

/// How a tile that was asked of a follower was answered.
#[derive(Drop)]
pub enum Got {
    Tile(Tile),
    /// The source failed at the rendering.
    SourceFault,
    /// No number of a render is left.
    Spent,
}
