//! The blobs of a catalogue's metatiles.
ghost use Rattle.std.specs.Prelude.{IfOk, length, ℕ, ◌≡◌};
ghost use Rattle.catalog.specs.LookUp.{IsTile};
ghost use Rattle.catalog.specs.Valid.{IsValid};
ghost use Rattle.ppm_slice.specs.OfCatalogue.{blob_cut};
ghost use Rattle.raster_field.specs.Blocks.{IsMeta, blob_size, block_of, block_text, tile_part};
ghost use Rattle.raster_field.specs.Rasters.{HasSize, picture_on, window_in};
ghost use Rattle.raster_field.specs.TileText.{tile_text};

use crate::parts::tile_bytes;
use crate::slicing::slice_blob;
use catalog::Catalogue;
use matrix_geometry::Address;
use metatile_plan::{MetaKey, laws_of_blocks};
use raster_field::{Raster, block_of, laws_of_metatiles, layout_of};
use std::alloc::{AllocError, Global};

/// The blob of a metatile of the catalogue out of a raster of its window. `AllocError` where memory runs out.
pub fn blob_of(
    alloc: Global,
    catalogue: &Catalogue,
    meta: &MetaKey,
    raster: &Raster,
) -> Result<Vec<u8>, AllocError>
    requires valid { IsValid catalogue.now }
    requires meta { IsMeta catalogue.now meta.now }
    requires size { HasSize raster.now (window_in catalogue.now meta.now) }
    ensures cut { IfOk result (λ blob. blob.items ≡ blob_cut catalogue.now meta.now raster.now) }
    ensures length { IfOk result (λ blob. length blob.items ≡ blob_size catalogue.now meta.now) }
    ensures picture { IfOk result (λ blob. (number : ℕ) → raster.now ≡ picture_on catalogue.now catalogue.now.source number (window_in catalogue.now meta.now) → blob.items ≡ block_text catalogue.now number meta.now) }
{
    let layout = layout_of(catalogue, meta);
    slice_blob(alloc, meta, &layout.factors, &layout.matrix, raster)
}

/// An encoded tile of the catalogue in a blob of its metatile, without a copy.
pub fn tile_of<'a>(catalogue: &Catalogue, blob: &'a [u8], address: &Address) -> &'a [u8]
    requires valid { IsValid catalogue.now }
    requires tile { IsTile catalogue.now address.now }
    requires blob { length blob.now ≡ blob_size catalogue.now (block_of catalogue.now address.now) }
    ensures part { result.now ≡ tile_part catalogue.now address.now blob.now }
    ensures text { (number : ℕ) → blob.now ≡ block_text catalogue.now number (block_of catalogue.now address.now) → result.now ≡ tile_text catalogue.now number address.now }
{
    laws_of_blocks();
    laws_of_metatiles();
    let meta = block_of(catalogue, address);
    let layout = layout_of(catalogue, &meta);
    tile_bytes(
        blob,
        &meta,
        &layout.factors,
        &layout.matrix,
        address.row,
        address.col,
    )
}
