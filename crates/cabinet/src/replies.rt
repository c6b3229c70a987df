//! What the commands of a cabinet can answer.
use base::SharedText;
use metatile_locks::Ticket;
use metatile_plan::MetaKey;

/// What an ask is answered.
pub enum Asked {
    /// The metatile of the tile is kept and was read: the number of its render, and the encoded tile, which shares the bytes of what
    /// is kept in memory.
    Hit(u64, SharedText),
    /// The caller is to render the metatile, and then to finish or abandon it.
    Ticket(Ticket),
    /// A render of the metatile runs that is not overtaken, with this number.
    Busy(u64),
    /// The metatile is not kept, no render of it runs, and no number is left.
    Spent,
}

/// What a force is answered.
pub enum Forced {
    /// The caller is to render the metatile, and then to finish or abandon it.
    Ticket(Ticket),
    /// A render of the metatile runs that is not overtaken, with this number.
    Busy(u64),
    /// No render of the metatile runs, and no number is left.
    Spent,
}

/// What a finish is answered. In all cases but `Stranger` the render has ended.
#[derive(Clone, Copy, PartialEq, Eq)]
pub enum Finished {
    /// No render of the ticket's number and metatile runs here; nothing changed.
    Stranger,
    /// The last truncation that overtook the render has this number; nothing is kept of it.
    Overtaken(u64),
    /// As many other metatiles are kept as may be; nothing is kept of the render.
    Full,
    /// No gap between the kept regions has room for the blob; nothing is kept of the render.
    NoRoom,
    /// The disk failed, whose count of faults was the first number before and is the second after; nothing is kept of the render.
    DiskFault(u64, u64),
    /// The blob is kept.
    Kept,
}

/// What a cut is answered.
#[derive(Clone, Copy, PartialEq, Eq)]
pub enum CutReply {
    /// The truncation was done, and has this number.
    Done(u64),
    /// As many cuts would stay in force as may be; nothing changed.
    Full,
    /// The disk failed, whose count of faults was the first number before and is the second after. A number was spent; nothing is
    /// dropped or overtaken.
    DiskFault(u64, u64),
    /// No number is left; nothing changed.
    Spent,
}

/// What an expiry is answered.
#[derive(Clone, Copy, PartialEq, Eq)]
pub enum Expired {
    /// This metatile was the first to go in the scope whose quota is exceeded, and is dropped.
    Dropped(MetaKey),
    /// The disk failed, whose count of faults was the first number before and is the second after; nothing is dropped.
    DiskFault(u64, u64),
    /// No quota is exceeded; nothing changed.
    Within,
}

/// What a saving of uses is answered.
#[derive(Clone, Copy, PartialEq, Eq)]
pub enum Saved {
    /// The uses of this metatile are saved.
    Done(MetaKey),
    /// The disk failed, whose count of faults was the first number before and is the second after; nothing is saved.
    DiskFault(u64, u64),
    /// All uses of what is kept are saved; nothing changed.
    Within,
}
