//! The type of a job.
use truncation_list::Cover;

/// What a job does at its places.
#[derive(Clone, Copy, PartialEq, Eq)]
pub enum JobKind {
    /// Renders each metatile that isn't kept.
    Seed,
    /// Renders each metatile anew.
    Reseed,
    /// Cuts all that its cover is for, at once.
    Truncate,
}

/// One job over the tiles of a cover.
#[derive(Clone, Copy, PartialEq, Eq)]
pub struct Job {
    pub kind: JobKind,
    pub cover: Cover,
    /// How many threads run it.
    pub threads: u32,
}
