//! The type of a tile matrix set.
use exact_ratio::{Items, Words};
use matrix_geometry::Matrix;

/// A tile matrix set (OGC 07-057r7, section 6): matrices from coarse to fine, each with its name at the same place.
#[derive(Drop)]
pub struct Grid {
    pub id: Words,
    pub names: Items<Words>,
    pub matrices: Items<Matrix>,
}
