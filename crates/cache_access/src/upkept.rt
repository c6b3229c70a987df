//! What upkeep comes to.

/// What upkeep came to, of which each turn but the last drops a metatile, or saves the uses of one.
#[derive(Clone, Copy, PartialEq, Eq)]
pub enum Upkept {
    /// After so many metatiles nothing was left to do.
    Done(u64),
    /// After so many metatiles the disk failed.
    DiskFault(u64),
    /// As many turns were made as may be, each for a metatile; more may be left to do.
    Stopped,
}
