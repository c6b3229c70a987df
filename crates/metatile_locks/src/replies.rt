//! What the begin and the end of a render are answered.
use crate::ticket::Ticket;

/// What a begin is answered.
pub enum Begin {
    /// The render has begun.
    Ticket(Ticket),
    /// A render of the metatile runs that is not overtaken, with this number.
    Busy(u64),
}

/// What an end is answered.
#[derive(Clone, Copy, PartialEq, Eq)]
pub enum End {
    /// No render of this number and metatile runs; nothing changed.
    Stranger,
    /// The last truncation that overtook the render has this number.
    Overtaken(u64),
    /// The render was not overtaken, and was begun at this moment.
    Whole(u64),
}
