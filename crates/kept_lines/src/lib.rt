//! A line of text for each metatile that is kept.
//!
//! Promises: `line_of` names a metatile of the catalogue by its layer, style, values, grid, matrix and first tile, and tells its number, moment,
//! uses and bytes (`specs/Lines.antt`).
//! Stands on catalog for the names, on raster_field for the first tile, on cabinet for what is kept, and on the crates of their types.
#![tactic(auto)]

mod line;
mod names;
mod numbers;
mod values;

pub use line::line_of;
