//! The choice of what a crash leaves of a disk in memory.

/// Which of the bytes that a crash may leave in the ranges that aren't synced.
#[derive(Clone, Copy, PartialEq, Eq, Drop)]
pub enum Pick {
    /// As before.
    Old,
    /// As written, by the last call that wrote there, also where it failed.
    New,
    /// The byte 0xA5.
    Noise,
}
