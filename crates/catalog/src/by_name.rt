//! Look-ups by name: the number of a layer, a grid, a matrix, a style or a value of a dimension.
ghost use Rattle.std.specs.Prelude.{◌≡◌, ◌<◌, Contains, IfSome, IsSome, IsSomeAnd, length, slice_get};
ghost use Rattle.catalog.specs.LookUp.{layer_named, grid_named, served_grid_named, matrix_named, style_named, dimension_at, value_named};
ghost use Rattle.catalog.specs.Valid.{IsValid};

use crate::catalogue::Catalogue;
use crate::named::place_named;

impl Catalogue {
    /// The number of the layer of this name; `None` exactly where no layer has it.
    pub fn layer_named(&self, name: &[u8]) -> Option<u32>
        requires { IsValid self.now }
        ensures { result ≡ layer_named self.now name.now }
    {
        place_named(self.layers.as_slice(), name)
    }

    /// The number of the grid of this name; `None` exactly where no grid has it.
    pub fn grid_named(&self, name: &[u8]) -> Option<u32>
        requires { IsValid self.now }
        ensures { result ≡ grid_named self.now name.now }
    {
        place_named(self.grids.as_slice(), name)
    }

    /// The number of the grid of this name that a layer serves; `None` exactly where the layer serves no grid of this name.
    pub fn served_grid_named(&self, layer: u32, name: &[u8]) -> Option<u32>
        requires { IsValid self.now }
        ensures value { result ≡ served_grid_named self.now layer name.now }
        ensures there { IfSome result (λ grid. grid < length self.now.grids) }
        ensures served { IfSome result (λ grid. IsSomeAnd (slice_get self.now.layers layer) (λ l. Contains l.grids grid)) }
    {
        let layer = self.layers.get(layer as usize)?;
        let grid = self.grid_named(name)?;
        if layer.serves(grid) { Some(grid) } else { None }
    }

    /// The number of the matrix of this name in a grid; `None` exactly where no matrix of it has the name.
    pub fn matrix_named(&self, grid: u32, name: &[u8]) -> Option<u32>
        requires valid { IsValid self.now }
        requires grid { grid < length self.now.grids }
        ensures { result ≡ matrix_named self.now grid name.now }
    {
        let grid = self.grids.get(grid as usize)?;
        place_named(grid.names.as_slice(), name)
    }

    /// The number of the style of this name in a layer; `None` exactly where no style of it has the name.
    pub fn style_named(&self, layer: u32, name: &[u8]) -> Option<u32>
        requires valid { IsValid self.now }
        requires layer { layer < length self.now.layers }
        ensures { result ≡ style_named self.now layer name.now }
    {
        let layer = self.layers.get(layer as usize)?;
        place_named(layer.styles.as_slice(), name)
    }

    /// The number of a value of a dimension of a layer; `None` exactly where it isn't one of its values.
    pub fn value_named(&self, layer: u32, dim: u32, name: &[u8]) -> Option<u32>
        requires valid { IsValid self.now }
        requires dim { IsSome (dimension_at self.now layer dim) }
        ensures { result ≡ value_named self.now layer dim name.now }
    {
        let dimension = self.dimension_at(layer, dim)?;
        place_named(dimension.values.as_slice(), name)
    }
}
