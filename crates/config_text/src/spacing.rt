//! What a matrix is made of: the spacing of its pixels and what it takes from its grid; and a matrix with its name.
use exact_ratio::{Decimal, Ratio, Words};
use matrix_geometry::{Corner, Matrix};

/// How far apart the pixels of a matrix are.
#[derive(Clone, Copy)]
pub enum Spacing {
    /// The side of a pixel, in units of the grid.
    BySpan(Ratio),
    /// The scale denominator.
    ByScale(Decimal),
}

/// What the matrices read of their grid.
#[derive(Clone, Copy)]
pub struct Ground {
    /// Meters in a unit.
    pub meters: Decimal,
    /// The corner of each matrix that gives none of its own.
    pub corner: Corner,
}

/// A matrix with its name.
#[derive(Drop)]
pub struct NamedMatrix {
    pub id: Words,
    pub matrix: Matrix,
}
