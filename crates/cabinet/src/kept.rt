//! A kept metatile: the number of its render and its region, alone and with its blob.
use crate::text::Text;
use exact_ratio::Words;
use metatile_plan::MetaKey;

/// A metatile that is kept: the number of its render and when that was begun, where its blob lies, and its uses.
#[derive(Clone, Copy, PartialEq, Eq)]
pub struct Kept {
    pub number: u64,
    pub meta: MetaKey,
    /// Where its region starts, in bytes from the start of the blobs.
    pub place: u64,
    /// How many bytes its region has.
    pub length: u32,
    /// When its render was begun, in seconds.
    pub moment: u64,
    /// The uses that count from before it was kept here.
    pub uses: u64,
}

/// A kept metatile with its blob, as contracts see it.
#[derive(Drop)]
pub struct KeptBlob {
    pub kept: Kept,
    pub text: Words,
}

/// What is held of a metatile that is kept: the number of its render and when that was begun, its region, its uses, and its
/// blob, which lies in memory or elsewhere.
#[derive(Drop)]
pub struct Blob {
    pub number: u64,
    /// Where its region starts, in bytes from the start of the blobs.
    pub place: u64,
    /// How many bytes its region has.
    pub length: u32,
    /// When its render was begun, in seconds.
    pub moment: u64,
    /// The uses that count from before it was kept here.
    pub uses: u64,
    pub text: Text,
}
