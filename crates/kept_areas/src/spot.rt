//! The types of a kept key and of a key that was hit.
use metatile_plan::MetaKey;

/// The key of a kept metatile, with the number of the render that is kept of it.
#[derive(Clone, Copy, PartialEq, Eq)]
pub struct KeptSpot {
    pub meta: MetaKey,
    pub number: u64,
}

/// A kept metatile that a cover hits.
#[derive(Clone, Copy, PartialEq, Eq)]
pub struct Hit {
    /// The chunk in which it stands.
    pub at: usize,
    pub meta: MetaKey,
}
