//! What a refresh comes to.

/// What came of the refresh of a metatile.
#[derive(Clone, Copy, PartialEq, Eq)]
pub enum Refreshed {
    /// The metatile is kept under this number; it was not rendered.
    AlreadyKept(u64),
    /// The metatile was rendered under this number, and is kept.
    Made(u64),
    /// The metatile was rendered under this number, and could not be kept: it was overtaken, there was no room, or the disk failed.
    Unkept(u64),
}
