//! The types of a recipe and of its parts.
use matrix_geometry::Theme;
use raster_field::Colour;

/// A part of a recipe: tiles of one theme.
#[derive(Clone, Copy, PartialEq, Eq)]
pub struct Part {
    pub theme: Theme,
    /// The colour through which the parts below are seen.
    pub key: Colour,
}

/// Which tiles are laid over each other.
#[derive(Drop)]
pub struct Recipe {
    /// The number of the grid that all parts have.
    pub grid: u32,
    /// The parts, from the top down.
    pub parts: Vec<Part>,
}
