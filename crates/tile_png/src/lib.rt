//! The PNG spelling of a tile, from the text of its pixmap.
//!
//! Promises: `png_of_tile` is the PNG spelling (`png_text`) of the pixmap that a text is, in the pixmap's width, height and pixels, and nothing
//! where the text is no pixmap (`laws_of_pixmaps`, `specs/Pixmap.antt`). The text of each tile in a picture of a valid catalogue is one
//! (`specs/Tiles.antt`).
//! Stands on png_text, raster_field, metatile_plan, catalog and matrix_geometry.
#![tactic(auto)]

mod head;
mod laws;
mod numbers;
mod spelling;

pub use laws::laws_of_pixmaps;
pub use spelling::png_of_tile;
