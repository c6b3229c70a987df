//! The numbers of a layer.
use matrix_geometry::Size;

/// The numbers of a layer: the factors of its metatiles, its gutter, the length of a cell, and its quota.
#[derive(Clone, Copy)]
pub struct Measures {
    pub meta: Size,
    pub gutter: u32,
    pub cell: u64,
    pub quota: Option<u64>,
}
