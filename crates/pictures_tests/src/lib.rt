//! Tests of the crates of pictures: values, windows and blobs that were worked out by hand, and files of cells.
//!
//! It has no code of its own and promises nothing: what the crates promise is proved in each of them. What a whole run of the
//! program shows is tested there.
//! Stands on metatile_plan, raster_field, ppm_slice, png_text, tile_png, ppm_reading and source_render, and on metatile_locks, catalog,
//! matrix_geometry and exact_ratio for what they are called with.
#![tactic(auto)]

#[cfg(test)]
mod blobs;
#[cfg(test)]
mod metas;
#[cfg(test)]
mod pixmaps;
#[cfg(test)]
mod plans;
#[cfg(test)]
mod pngs;
#[cfg(test)]
mod rasters;
#[cfg(test)]
mod renders;
#[cfg(test)]
mod sources;
