//! The types of the bounds of some keys.

/// From the least to the greatest of some numbers.
#[derive(Clone, Copy, PartialEq, Eq)]
pub struct Side {
    pub least: u32,
    pub most: u32,
}

/// Between which layers, grids, zooms, rows and columns some keys lie, and the least of their numbers; `None` without a key.
#[derive(Clone, Copy, PartialEq, Eq)]
pub struct Sides {
    pub layer: Side,
    pub grid: Side,
    pub z: Side,
    pub row: Side,
    pub col: Side,
    pub number: Option<u64>,
}
