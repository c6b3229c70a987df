//! What a turn does to a cabinet, and what it is answered.
use base::SharedText;
use cabinet::{Asked, CutReply, Expired, Finished, Forced, Saved};
use matrix_geometry::Address;
use metatile_locks::Ticket;
use metatile_plan::MetaKey;
use truncation_list::Cover;

/// What a turn does.
pub enum Command {
    /// Asks for a tile.
    Ask(Address),
    /// Asks for a render of a metatile, whether it is kept or not.
    Force(MetaKey),
    /// Ends the render of a ticket, and hands in its blob.
    Finish(Ticket, SharedText),
    /// Ends the render of a ticket, and keeps nothing of it.
    Abandon(Ticket),
    /// Truncates.
    Cut(Cover),
    /// Drops the first metatile to go of a scope whose quota is exceeded.
    Expire,
    /// Saves the uses of one metatile.
    SaveUses,
    /// Counts what is kept of the layer with this number, or of all layers where the number is how many there are.
    Usage(u32),
}

/// What a turn is answered.
pub enum Reply {
    Asked(Asked),
    Forced(Forced),
    Finished(Finished),
    Abandoned,
    Cut(CutReply),
    Expired(Expired),
    Saved(Saved),
    Usage(Counts),
}

/// What is kept of a layer, or of all layers.
#[derive(Clone, Copy, PartialEq, Eq)]
pub struct Counts {
    /// How many metatiles are kept.
    pub metatiles: u32,
    /// The bytes that they take.
    pub bytes: u64,
    /// How many truncations are in force, for whatever layer.
    pub cuts: u32,
}
