//! How large a job is, before it is run: how many places it has, and how many bytes the blobs of their metatiles take.
//!
//! Promises: `size_of` counts the places of a job that fits the catalogue, and sums the bytes of a blob of each metatile among them, cut to its
//! matrix (`specs/Sizes.antt`); it takes no memory, and touches nothing.
//! Stands on job_forms, which has the places, on raster_field, which has the bytes of a blob, and on the crates of their types.
#![tactic(auto)]

mod sizes;

pub use sizes::{JobSize, size_of};
