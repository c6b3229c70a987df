//! The entry of a running render.
use metatile_plan::MetaKey;

/// A render that runs: the moment at which it was begun, in seconds, and the number of the last truncation that overtook it.
#[derive(Clone, Copy, PartialEq, Eq)]
pub struct Render {
    pub number: u64,
    pub meta: MetaKey,
    pub moment: u64,
    pub mark: Option<u64>,
}
