//! The tile of a part.
ghost use Rattle.std.specs.Prelude.{◌≡◌};
ghost use Rattle.catalog.specs.LookUp.{IsTile};
ghost use Rattle.catalog.specs.declared.catalogue.Catalogue.{Catalogue};
ghost use Rattle.layer_recipes.specs.OfCatalogue.{IsPartOf, IsPlaceIn, tile_at};

use crate::recipe::Part;
use matrix_geometry::Address;

/// Where in the matrix of this number of a grid a tile lies.
#[derive(Clone, Copy, PartialEq, Eq)]
pub struct TilePlace {
    pub grid: u32,
    pub z: u32,
    pub row: u32,
    pub col: u32,
}

impl TilePlace {
    /// The tile of a part that lies here. It is a tile of each catalogue of which the part and the place are.
    pub fn tile(&self, part: &Part) -> Address
        ensures tile { result ≡ tile_at self.now part.now }
        ensures of { (c : Catalogue) → IsPartOf c self.now.grid part.now → IsPlaceIn c self.now → IsTile c result }
    {
        Address {
            theme: part.theme,
            grid: self.grid,
            z: self.z,
            row: self.row,
            col: self.col,
        }
    }
}
