//! The cuts of a zoom as they are aimed at its metatiles: which rows and columns of metatiles each of them reaches.
use matrix_geometry::{Filter, Matrix, Range};
use metatile_plan::Factors;

/// A zoom of a layer on a grid, with how its tiles are gathered into metatiles.
#[derive(Clone, Copy, PartialEq, Eq)]
pub struct Zoom {
    pub layer: u32,
    pub grid: u32,
    /// The number of the matrix.
    pub z: u32,
    pub factors: Factors,
    pub matrix: Matrix,
}

/// A cut that is aimed at the metatiles of a zoom.
#[derive(Clone, Copy)]
pub struct AimedCut {
    pub number: u64,
    /// The rows and columns of metatiles that its cover reaches; `None` where it reaches none.
    pub reach: Option<Range>,
    pub filter: Filter,
}

/// The cuts of a zoom, aimed, from the last one of all cuts downwards as far as they were looked at.
#[derive(Drop)]
pub struct Aims {
    pub zoom: Zoom,
    /// How many of all cuts weren't looked at: the first ones.
    pub left: u32,
    /// The last one comes first.
    pub cuts: Vec<AimedCut>,
}
