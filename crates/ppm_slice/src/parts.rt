//! An encoded tile in a blob.
ghost use Rattle.std.specs.Prelude.{Some, length, ℕ, ◌≡◌};
ghost use Rattle.catalog.specs.LookUp.{matrix_in};
ghost use Rattle.catalog.specs.declared.catalogue.Catalogue.{Catalogue};
ghost use Rattle.matrix_geometry.specs.Limits.{IsWithinLimits};
ghost use Rattle.metatile_plan.specs.Plan.{IsIn, IsMetaIn, IsPlan, tiles_of};
ghost use Rattle.metatile_plan.specs.Texts.{blob_len, span_of};
ghost use Rattle.raster_field.specs.Blocks.{IsMeta, block_text, factors_at, part_of, tile_in};
ghost use Rattle.raster_field.specs.TileText.{tile_text};

use matrix_geometry::Matrix;
use metatile_plan::{Factors, MetaKey, tile_span_in_blob};

/// An encoded tile in a blob of its metatile, without a copy.
pub fn tile_bytes<'a>(
    blob: &'a [u8],
    meta: &MetaKey,
    f: &Factors,
    m: &Matrix,
    row: u32,
    col: u32,
) -> &'a [u8]
    requires limits { IsWithinLimits m.now }
    requires plan { IsPlan f.now m.now }
    requires meta { IsMetaIn f.now m.now meta.now }
    requires tile { IsIn (tiles_of f.now m.now meta.now) row col }
    requires blob { length blob.now ≡ blob_len f.now m.now meta.now }
    ensures part { result.now ≡ part_of (span_of f.now m.now meta.now row col) blob.now }
    ensures text { (c : Catalogue) (number : ℕ) → IsMeta c meta.now → matrix_in c meta.now.grid meta.now.z ≡ Some m.now → f.now ≡ factors_at c meta.now.theme → blob.now ≡ block_text c number meta.now → result.now ≡ tile_text c number (tile_in meta.now row col) }
{
    let span = tile_span_in_blob(meta, f, m, row, col);
    let start = span.start as usize;
    &blob[start..start + span.length as usize]
}
