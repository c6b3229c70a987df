//! Blobs of metatiles: encoded tiles that are cut out of a rendered window, and handed out of a blob again.
//!
//! Promises: `slice_blob` cuts the gutter away, also at the edge of the matrix; where the raster shows the picture on the
//! metatile's window, the blob is `block_text`. `blob_of` is the same in the terms of a catalogue (`specs/OfCatalogue.antt`).
//! `tile_bytes` is the tile's part of a blob, and of `block_text` it is `tile_text`. Stands on raster_field, metatile_plan and matrix_geometry.
#![tactic(auto)]

mod of_catalogue;
mod parts;
mod slicing;

pub use of_catalogue::{blob_of, tile_of};
pub use parts::tile_bytes;
pub use slicing::slice_blob;
