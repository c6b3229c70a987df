//! What a shelf reads and finds.
use crate::kept::Kept;
use base::SharedText;

/// What is read of a kept metatile.
#[derive(Drop)]
pub struct FoundTile {
    /// The number of its render.
    pub number: u64,
    /// When that was begun, in seconds.
    pub moment: u64,
    /// The tile's part of its blob.
    pub text: SharedText,
}

/// A kept metatile that a cover hits.
#[derive(Clone, Copy, PartialEq, Eq)]
pub struct KeptHit {
    /// The chunk of keys in which it was found, from which the next one is looked for.
    pub at: usize,
    pub kept: Kept,
}
