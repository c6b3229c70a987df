//! What is counted apart, and what is not counted but read where the text is asked for.

/// What a request for a tile came to.
#[derive(Clone, Copy, PartialEq, Eq)]
pub enum Outcome {
    /// The tile was kept.
    Hit,
    /// The tile was rendered, or waited for a render.
    Miss,
    /// The request asks for what the server doesn't have.
    Refusal,
    /// The server could not do what was asked.
    Fault,
}

/// What failed.
#[derive(Clone, Copy, PartialEq, Eq)]
pub enum MeteredFault {
    /// The disk of the cache.
    Disk,
    /// A source of pictures.
    Source,
    /// Memory ran out.
    Memory,
    /// A limit of how much may be done or kept at once was reached.
    Crowded,
}

/// Numbers that rise and fall, as they stand when the text is asked for.
#[derive(Clone, Copy, PartialEq, Eq)]
pub struct Levels {
    /// Metatiles in the hot tier, in memory.
    pub hot_metatiles: u64,
    /// Metatiles that are kept.
    pub kept_metatiles: u64,
    /// The bytes of these.
    pub kept_bytes: u64,
    /// Truncations in force.
    pub truncations: u64,
    /// Jobs that wait or run.
    pub jobs: u64,
}
