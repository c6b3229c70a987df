//! What holds of all pictures on windows, and of all metatiles of a valid catalogue.
ghost use Rattle.std.specs.Prelude.{IsSome, Option, Some, length, ℕ, ◌+◌, ◌<◌, ◌≡◌, ◌≤◌};
ghost use Rattle.catalog.specs.LookUp.{IsTile, matrix_in};
ghost use Rattle.catalog.specs.Valid.{IsValid};
ghost use Rattle.catalog.specs.declared.catalogue.Catalogue.{Catalogue};
ghost use Rattle.matrix_geometry.specs.Limits.{IsWithinLimits};
ghost use Rattle.matrix_geometry.specs.declared.address.Address.{Address};
ghost use Rattle.matrix_geometry.specs.declared.matrix.Matrix.{Matrix};
ghost use Rattle.metatile_plan.specs.Plan.{IsMetaIn, IsPlan};
ghost use Rattle.metatile_plan.specs.declared.metatile.MetaKey.{MetaKey};
ghost use Rattle.metatile_plan.specs.declared.windows.Window.{Window};
ghost use Rattle.raster_field.specs.Blocks.{IsMeta, blob_size, block_of, block_text, factors_at, tile_part};
ghost use Rattle.raster_field.specs.Picture.{Scene, colour_at, scene_of};
ghost use Rattle.raster_field.specs.Rasters.{IsWhole, colour_in, part_of_row, picture_in};
ghost use Rattle.raster_field.specs.TileText.{pixel_row, tile_text};

use metatile_plan::laws_of_blocks;

/// The picture on a window has at each pixel the colour of the whole picture there, and the parts of its rows are parts of
/// the rows of the whole picture.
pub fn laws_of_pictures()
    ensures colour { (s : Scene) (w : Window) (x y : ℕ) → x < w.width → y < w.height → colour_in (picture_in (Some s) w) x y ≡ colour_at s (w.x + x) (w.y + y) }
    ensures part { (s : Scene) (w : Window) (x y count : ℕ) → x + count ≤ w.width → y < w.height → part_of_row (picture_in (Some s) w) x y count ≡ pixel_row s (w.x + x) (w.y + y) count }
    ensures whole { (scene : Option Scene) (w : Window) → IsWhole (picture_in scene w) }
{}

/// The metatile of a tile of the catalogue is one of the catalogue. Such a metatile is within the limits and has a scene,
/// and its blob has the size that is said of it, with each of its encoded tiles in the tile's place.
pub fn laws_of_metatiles()
    ensures meta { (c : Catalogue) (a : Address) → IsTile c a → IsMeta c (block_of c a) }
    ensures limits { (c : Catalogue) (k : MetaKey) (m : Matrix) → IsValid c → IsMeta c k → matrix_in c k.grid k.z ≡ Some m → IsWithinLimits m }
    ensures plan { (c : Catalogue) (k : MetaKey) (m : Matrix) → IsValid c → IsMeta c k → matrix_in c k.grid k.z ≡ Some m → IsPlan (factors_at c k.theme) m }
    ensures place { (c : Catalogue) (k : MetaKey) (m : Matrix) → IsMeta c k → matrix_in c k.grid k.z ≡ Some m → IsMetaIn (factors_at c k.theme) m k }
    ensures scene { (c : Catalogue) (k : MetaKey) (source number : ℕ) → IsMeta c k → IsSome (scene_of c source number k.theme k.grid k.z) }
    ensures size { (c : Catalogue) (k : MetaKey) (number : ℕ) → IsMeta c k → length (block_text c number k) ≡ blob_size c k }
    ensures part { (c : Catalogue) (a : Address) (number : ℕ) → IsValid c → IsTile c a → tile_part c a (block_text c number (block_of c a)) ≡ tile_text c number a }
{
    laws_of_blocks();
}
