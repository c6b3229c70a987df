//! Metatiles: the blocks of tiles that are rendered, kept and dropped as one.
//!
//! Promises: the block of a metatile, its window of pixels with the gutter and the place of a tile in its blob are those of
//! `specs/`; each tile lies in the block of its one metatile, and the places of a block's tiles fill its blob in order.
//! Stands on matrix_geometry.
#![tactic(auto)]

mod keys;
mod laws;
mod metatile;
mod plan;
mod span;
mod spans;
mod windows;

pub use keys::{laws_of_keys, same_meta};
pub use laws::{laws_of_blocks, laws_of_spans, laws_of_windows};
pub use metatile::{Factors, MetaKey};
pub use plan::{meta_of, tiles_of, window};
pub use span::Span;
pub use spans::{blob_len, tile_len, tile_span_in_blob};
pub use windows::Window;
