//! Blobs and the parts of them that are tiles.
ghost use Rattle.std.specs.Prelude.{IfOk, List, length, ℕ, ◌+◌, ◌≡◌, ◌≤◌};
ghost use Rattle.catalog.specs.LookUp.{IsTile};
ghost use Rattle.catalog.specs.Valid.{IsValid};
ghost use Rattle.raster_field.specs.Blocks.{IsMeta, blob_size, block_of, block_text, part_of, tile_part};
ghost use Rattle.raster_field.specs.TileText.{tile_text};

use base::SharedText;
use catalog::Catalogue;
use matrix_geometry::Address;
use metatile_plan::{MetaKey, Span, laws_of_blocks, tile_span_in_blob};
use raster_field::{block_of, laws_of_metatiles, layout_of};
use std::alloc::AllocError;

/// The bytes of a blob of a metatile.
pub fn blob_bytes(catalogue: &Catalogue, meta: &MetaKey) -> u32
    requires valid { IsValid catalogue.now }
    requires meta { IsMeta catalogue.now meta.now }
    ensures size { result ≡ blob_size catalogue.now meta.now }
    ensures some { 1 ≤ result }
{
    raster_field::blob_size(catalogue, meta)
}

/// Where a tile stands in a blob of its metatile.
pub fn tile_span(catalogue: &Catalogue, address: &Address) -> Span
    requires valid { IsValid catalogue.now }
    requires tile { IsTile catalogue.now address.now }
    ensures part { (blob : List ℕ) → part_of result blob ≡ tile_part catalogue.now address.now blob }
    ensures inside { result.start + result.length ≤ blob_size catalogue.now (block_of catalogue.now address.now) }
{
    laws_of_blocks();
    let meta = block_of(catalogue, address);
    let layout = layout_of(catalogue, &meta);
    tile_span_in_blob(
        &meta,
        &layout.factors,
        &layout.matrix,
        address.row,
        address.col,
    )
}

/// The tile's part of a blob of its metatile, which shares the blob's bytes. `AllocError` where the blob has as many owners as may be.
pub fn tile_in(
    catalogue: &Catalogue,
    address: &Address,
    blob: &SharedText,
) -> Result<SharedText, AllocError>
    requires valid { IsValid catalogue.now }
    requires tile { IsTile catalogue.now address.now }
    requires blob { length blob.now ≡ blob_size catalogue.now (block_of catalogue.now address.now) }
    ensures part { IfOk result (λ text. text ≡ tile_part catalogue.now address.now blob.now) }
    ensures sound { IfOk result (λ text. (k : ℕ) → blob.now ≡ block_text catalogue.now k (block_of catalogue.now address.now) → text ≡ tile_text catalogue.now k address.now) }
{
    laws_of_metatiles();
    let span = tile_span(catalogue, address);
    let start = span.start as usize;
    blob.part(start, start + span.length as usize)
}
