//! The entries of a cabinet's history: what may have happened in it.
use metatile_plan::MetaKey;
use truncation_list::Cover;

/// What happened in a cabinet.
#[derive(Clone, Copy, PartialEq, Eq)]
pub enum HistoryEntry {
    /// The clock gave this moment, in seconds, to the ask or force that begins here.
    At(u64),
    /// A ticket with this number was given for the metatile.
    Started(u64, MetaKey),
    /// A truncation with this number and cover was done.
    Cut(u64, Cover),
    /// A truncation spent this number, and the disk failed.
    Missed(u64),
    /// The render with this number is kept for the metatile, at this place and of so many bytes; it was begun at this moment,
    /// and so many uses of it count from before.
    Stored(u64, MetaKey, u64, u32, u64, u64),
    /// So many uses of the kept metatile were saved.
    Counted(MetaKey, u64),
    /// The render with this number ended, and is not kept.
    Ended(u64),
    /// A tile of the kept metatile was handed out.
    Used(MetaKey),
    /// The kept metatile expired.
    Dropped(MetaKey),
}
