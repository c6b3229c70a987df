//! What pixmaps' texts are spelt as.
ghost use Rattle.std.specs.Prelude.{List, Some, ℕ, ◌≡◌};
ghost use Rattle.catalog.specs.LookUp.{IsTile};
ghost use Rattle.catalog.specs.Valid.{IsValid};
ghost use Rattle.catalog.specs.declared.catalogue.Catalogue.{Catalogue};
ghost use Rattle.matrix_geometry.specs.declared.address.Address.{Address};
ghost use Rattle.png_text.specs.Picture.{png_of};
ghost use Rattle.tile_png.specs.Pixmap.{IsPixmap};
ghost use Rattle.tile_png.specs.Reading.{png_of_tile};
ghost use Rattle.tile_png.specs.Tiles.{IsSpeltTile};

/// The text of a pixmap is spelt with the pixmap's width, height and pixels, and no other text has a spelling. That of each tile in a picture of
/// a valid catalogue is spelt with the tile's.
pub fn laws_of_pixmaps()
    ensures spelt { (width height : ℕ) (pixels text : List ℕ) → IsPixmap width height pixels text → png_of_tile text ≡ Some (png_of width height pixels) }
    ensures only { (text png : List ℕ) → png_of_tile text ≡ Some png → (width : ℕ) × (height : ℕ) × (pixels : List ℕ) × IsPixmap width height pixels text × (png ≡ png_of width height pixels) }
    ensures tiles { (c : Catalogue) (a : Address) (number : ℕ) → IsValid c → IsTile c a → IsSpeltTile c number a }
{}
