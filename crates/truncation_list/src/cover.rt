//! The type of a cover.
use matrix_geometry::{Box9, Filter};

/// Which tiles a truncation or a seed is for: those of a layer and a grid, of the matrices from `z_start` to `z_stop`, in
/// the box where there is one, with the styles and values that the filter admits.
#[derive(Clone, Copy, PartialEq, Eq)]
pub struct Cover {
    pub layer: u32,
    pub grid: u32,
    /// The number of the first matrix.
    pub z_start: u32,
    /// The number of the last matrix.
    pub z_stop: u32,
    /// A box on the ground; `None` for all of each matrix.
    pub bounds: Option<Box9>,
    pub filter: Filter,
}
