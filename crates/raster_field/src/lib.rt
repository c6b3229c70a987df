//! What a numbered picture shows: colours, values and rasters, and in `specs/` the picture of a render, an encoded tile
//! and the blob of a metatile.
//!
//! Promises: `colour_of` is the colour of a value in a style, and `field_value` the value of a pixel. A raster is what was
//! set. The definitions `colour_at` and `tile_text` of `specs/Picture.antt` and `specs/TileText.antt` know no window and no
//! metatile; all that is rendered, kept and answered is stated by them.
//! Stands on catalog, metatile_plan and matrix_geometry.
#![tactic(auto)]

mod colour;
mod field;
mod known;
mod laws;
mod layout;
mod raster;

pub use colour::{Colour, colour_of};
pub use field::{cell_at, field_value, shade_of};
pub use known::is_meta;
pub use laws::{laws_of_metatiles, laws_of_pictures};
pub use layout::{Layout, blob_size, block_of, factors_of, first_tile, layout_of, window_at};
pub use raster::Raster;
