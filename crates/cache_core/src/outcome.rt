//! The outcomes of a request for a tile.
use base::SharedText;

/// A tile that is answered: whether a kept metatile gave it, the number of its render, and the encoded tile, which shares the bytes
/// of its metatile's blob or of what is kept in memory.
#[derive(Drop)]
pub struct Tile {
    pub hit: bool,
    pub number: u64,
    pub bytes: SharedText,
}

/// How a request for a tile ended.
#[derive(Drop)]
pub enum TileOutcome {
    Tile(Tile),
    /// The source failed at the rendering.
    SourceFailed,
    /// No number of a render is left.
    Spent,
    /// Memory ran out.
    NoMemory,
}
