//! Look-ups by number: the layers, styles, grids, matrices and dimensions of the catalogue.
ghost use Rattle.std.specs.Prelude.{◌≡◌, ◌↔◌, true, Contains, IfSome, IsSome, Some, option_copied, slice_get};
ghost use Rattle.catalog.specs.LookUp.{dimension_at, dimensions_of, layer_of, matrix_in, serves, style_of};
ghost use Rattle.catalog.specs.Valid.{IsDimension, IsGrid, IsLayer, IsNamedGrid, IsStyle, IsValid};
ghost use Rattle.matrix_geometry.specs.Limits.{IsWithinLimits};

use crate::catalogue::Catalogue;
use crate::grid::Grid;
use crate::layer::{Dimension, Layer, Style};
use matrix_geometry::{Matrix, Theme};

impl Catalogue {
    /// The layer of this number, which has to be that of one.
    pub fn layer(&self, number: u32) -> &Layer
        requires valid { IsValid self.now }
        requires there { IsSome (slice_get self.now.layers number) }
        ensures layer { slice_get self.now.layers number ≡ Some result.now }
        ensures valid { IsLayer result.now }
    {
        let Some(layer) = self.layers.get(number as usize) else {
            unreachable!()
        };
        layer
    }

    /// The layer of a theme of the catalogue.
    pub fn layer_of(&self, theme: &Theme) -> &Layer
        requires valid { IsValid self.now }
        requires theme { IsSome (style_of self.now theme.now) }
        ensures layer { layer_of self.now theme.now ≡ Some result.now }
        ensures valid { IsLayer result.now }
    {
        let Some(layer) = self.layers.get(theme.layer as usize) else {
            unreachable!()
        };
        layer
    }

    /// The style of a theme of the catalogue.
    pub fn style_of(&self, theme: &Theme) -> &Style
        requires valid { IsValid self.now }
        requires theme { IsSome (style_of self.now theme.now) }
        ensures style { style_of self.now theme.now ≡ Some result.now }
        ensures valid { IsStyle result.now }
    {
        let layer = self.layer_of(theme);
        let Some(style) = layer.styles.get(theme.style as usize) else {
            unreachable!()
        };
        style
    }

    /// The grid of this number, which has to be that of one.
    pub fn grid(&self, number: u32) -> &Grid
        requires valid { IsValid self.now }
        requires there { IsSome (slice_get self.now.grids number) }
        ensures grid { slice_get self.now.grids number ≡ Some result.now }
        ensures valid { IsGrid result.now }
        ensures named { IsNamedGrid result.now }
    {
        let Some(grid) = self.grids.get(number as usize) else {
            unreachable!()
        };
        grid
    }

    /// The matrix of this number in a grid, which has to be that of one.
    pub fn matrix(&self, grid: u32, z: u32) -> &Matrix
        requires valid { IsValid self.now }
        requires there { IsSome (matrix_in self.now grid z) }
        ensures matrix { matrix_in self.now grid z ≡ Some result.now }
        ensures limits { IsWithinLimits result.now }
    {
        let Some(grid) = self.grids.get(grid as usize) else {
            unreachable!()
        };
        let Some(matrix) = grid.matrices.get(z as usize) else {
            unreachable!()
        };
        matrix
    }

    /// The matrix of this number in a grid; `None` exactly where the grid has no such matrix, or there is no such grid.
    pub fn matrix_in(&self, grid: u32, z: u32) -> Option<&Matrix>
        ensures { option_copied result ≡ matrix_in self.now grid z }
    {
        let grid = self.grids.get(grid as usize)?;
        grid.matrices.get(z as usize)
    }

    /// The dimensions of a layer; none where no layer has the number.
    pub fn dimensions_of(&self, layer: u32) -> &[Dimension]
        ensures { result.now ≡ dimensions_of self.now layer }
    {
        match self.layers.get(layer as usize) {
            Some(layer) => layer.dims.as_slice(),
            None => &[],
        }
    }

    /// A dimension of a layer; `None` exactly where the layer has no dimension of the number, or there is no such layer.
    pub fn dimension_at(&self, layer: u32, dim: u32) -> Option<&Dimension>
        ensures value { option_copied result ≡ dimension_at self.now layer dim }
        ensures valid { IsValid self.now → IfSome result (λ dimension. IsDimension dimension.now) }
    {
        let layer = self.layers.get(layer as usize)?;
        layer.dims.get(dim as usize)
    }
}

impl Layer {
    /// Whether the grid of this number is one of the layer's.
    #[tactic(auto, using(crate::proofs::Found::contains_of))]
    pub fn serves(&self, grid: u32) -> bool
        ensures value { result ≡ serves self.now grid }
        ensures there { (result ≡ true) ↔ Contains self.now.grids grid }
    {
        self.grids.as_slice().contains(&grid)
    }
}
