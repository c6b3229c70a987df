//! The types of a part, of a hole and of a spot.

/// A part of a space: so many bytes from a place on.
#[derive(Clone, Copy, PartialEq, Eq)]
pub struct Extent {
    /// The place of its first byte, counted from 0.
    pub place: u64,
    /// How many bytes it has.
    pub length: u32,
}

/// A hole between parts of a list.
#[derive(Clone, Copy)]
pub struct Hole {
    /// How many of the parts lie before it.
    pub index: usize,
    /// Where it starts.
    pub place: u64,
}

/// Where a part stands, or would stand, among parts in chunks.
#[derive(Clone, Copy)]
pub struct ExtentSpot {
    /// The chunk's number.
    pub chunk: usize,
    /// How many parts of the chunk lie before it.
    pub index: usize,
}

/// A hole between parts in chunks.
#[derive(Clone, Copy)]
pub struct FoundHole {
    /// Where a part in it would stand.
    pub spot: ExtentSpot,
    /// Where it starts.
    pub place: u64,
}

/// What a search asks of a list of parts before it goes through them.
#[derive(Clone, Copy)]
pub struct Summary {
    /// Where the first part starts, and 0 without one.
    pub start: u64,
    /// Where the last part ends, and 0 without one.
    pub end: u64,
    /// No hole between two of the parts has more bytes.
    pub widest: u64,
}
