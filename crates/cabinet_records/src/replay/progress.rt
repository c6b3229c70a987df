//! What the records of a journal come to so far, as a replay holds it.
use crate::replay::cuts::ReplayCuts;
use crate::replay::places::Places;
use cabinet::{Kept, Store};
use extent_map::Extents;

/// What is held while records are played.
#[derive(Drop)]
pub struct ReplayProgress {
    /// The number of the last opening.
    pub opening: Option<u32>,
    pub floor: u64,
    /// What is kept. Its blobs have no bytes here.
    pub store: Store,
    /// The regions of what is kept.
    pub regions: Extents,
    /// The numbers of what is kept, each with the place of its record.
    pub places: Places,
    /// All cuts, none of them purged. The floor of this list is 0.
    pub cuts: ReplayCuts,
    /// Where what is kept will be listed. There is room for all of it.
    pub out: Vec<Kept>,
}
