//! How far apart tiles begin on the disk of a cache: the least length of an encoded tile, on any matrix of its catalogue.
//!
//! Promises: `grain_of` gives a number of bytes that no tile of the catalogue of a text is shorter than.
//! Stands on config_text, catalog, metatile_plan, matrix_geometry and exact_ratio.
#![tactic(auto)]

mod grain;

pub use grain::{LEAST_GRAIN, grain_of};
