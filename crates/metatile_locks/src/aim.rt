//! The type of an aim.
use matrix_geometry::Range;

/// Which metatiles a cover reaches at a zoom.
#[derive(Clone, Copy, PartialEq, Eq)]
pub struct Aim {
    /// The number of the matrix.
    pub z: u32,
    /// The rows and columns of metatiles; `None` where it reaches none.
    pub reach: Option<Range>,
}
