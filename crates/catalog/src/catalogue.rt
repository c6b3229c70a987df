//! The type of the catalogue, with the policy of expiry and the scope of a quota.
use crate::grid::Grid;
use crate::layer::Layer;
use exact_ratio::Items;

/// Which kept metatile is dropped first where a quota is exceeded.
#[derive(Clone, Copy, PartialEq, Eq)]
pub enum Policy {
    /// The one that was used last the longest ago.
    Lru,
    /// The one that was used least often.
    Lfu,
}

/// What a quota counts: one layer, or all of them.
#[derive(Clone, Copy, PartialEq, Eq)]
pub enum Scope {
    Layer(u32),
    All,
}

/// What a cache serves, and its limits.
#[derive(Drop)]
pub struct Catalogue {
    /// The SHA-256 of the text that it was read from.
    pub digest: [u8; 32],
    /// The number of the source that renders its pictures.
    pub source: u32,
    /// How many metatiles may be kept.
    pub kept_limit: u32,
    /// How many truncations may be in force.
    pub cut_limit: u32,
    /// How many bytes the kept metatiles have room in.
    pub blob_bytes: u64,
    /// The most bytes that all kept metatiles may take.
    pub quota: Option<u64>,
    pub policy: Policy,
    pub grids: Items<Grid>,
    pub layers: Items<Layer>,
}
