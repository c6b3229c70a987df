//! What the records of a journal are restored to.
use cabinet::Kept;
use truncation_list::CutList;

/// What a cache holds after its records were replayed.
#[derive(Drop)]
pub struct Restored {
    /// The number of its last opening, `None` where it was never opened.
    pub opening: Option<u32>,
    /// What is kept, in the order of the records that keep it.
    pub kept: Vec<Kept>,
    /// The cuts in force, purged, with their floor.
    pub cuts: CutList,
}
