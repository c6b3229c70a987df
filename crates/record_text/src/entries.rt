//! The records of a journal.
use metatile_plan::MetaKey;
use truncation_list::Cover;

/// What a journal records.
#[derive(Clone, Copy, PartialEq, Eq)]
pub enum Record {
    /// The number of an opening, and the floor of the list of cuts.
    Opened(u32, u64),
    /// The number under which a metatile is kept, the metatile, the place and the length of its blob in bytes, the moment
    /// in seconds at which its render began, and how often it was used.
    Stored(u64, MetaKey, u64, u32, u64, u64),
    /// The number under which a metatile was kept, and the metatile.
    Dropped(u64, MetaKey),
    /// The number of a cut, and which tiles it is for.
    Cut(u64, Cover),
    /// The number under which a metatile is kept, the metatile, and how often it was used.
    Uses(u64, MetaKey, u64),
}
