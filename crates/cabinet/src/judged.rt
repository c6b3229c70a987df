//! What is to come of a command, told before anything changes.
use crate::kept::Kept;

/// What is to come of the end of a render.
#[derive(Clone, Copy, PartialEq, Eq)]
pub enum Judged {
    /// No render of the ticket's number and metatile runs here.
    Stranger,
    /// The last truncation that overtook it has this number.
    Overtaken(u64),
    /// As many other metatiles are kept as may be.
    Full,
    /// No gap between the kept regions has room for its blob.
    NoRoom,
    /// It may be kept, here.
    Fits(Kept),
}

/// What is to come of a truncation.
#[derive(Clone, Copy, PartialEq, Eq)]
pub enum Admitted {
    /// It may be done, under this number.
    Number(u64),
    /// As many cuts would stay in force as may be.
    Full,
    /// No number is left.
    Spent,
}

/// A kept metatile with uses that are not all saved.
#[derive(Clone, Copy, PartialEq, Eq)]
pub struct Unsaved {
    pub kept: Kept,
    /// How many uses it has.
    pub uses: u64,
}
