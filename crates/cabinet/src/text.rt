//! The text of a kept blob: it lies in memory, or elsewhere.
ghost use Rattle.std.specs.Prelude.{IfOk, length, replicate, ℕ, ◌≡◌};
ghost use Rattle.catalog.specs.LookUp.{IsTile};
ghost use Rattle.catalog.specs.Valid.{IsValid};
ghost use Rattle.raster_field.specs.Blocks.{blob_size, block_of, block_text, tile_part};
ghost use Rattle.raster_field.specs.TileText.{tile_text};

use crate::blob::tile_in;
use base::SharedText;
use catalog::Catalogue;
use matrix_geometry::Address;
use std::alloc::{AllocError, Global};
use std::marker::Model;

/// The text of a blob. Contracts see its bytes; one that lies elsewhere is seen as zeros of its length.
#[derive(Drop)]
pub struct Text {
    here: Option<SharedText>,
    length: u32,
}

impl Model for Text {
    ghost use Rattle.std.specs.Prelude.{List, replicate, ℕ};
    ghost use Rattle.std.specs.Option.{option_map_or};

    ghost Value = { List ℕ };

    ghost view = { λ t. option_map_or (λ bytes. bytes) t.here (replicate t.length 0) };
}

/// So many zeros. `AllocError` where memory runs out.
fn zeros(alloc: Global, length: u32) -> Result<SharedText, AllocError>
    ensures { IfOk result (λ made. made ≡ replicate length 0) }
{
    let mut made = Vec::new(alloc);
    made.resize(length as usize, 0)?;
    SharedText::of(alloc, made)
}

impl Text {
    /// A text in memory.
    pub fn of(bytes: SharedText) -> Text
        ensures { result ≡ bytes }
    {
        Text {
            here: Some(bytes),
            length: 0,
        }
    }

    /// A text of so many bytes that lies elsewhere.
    pub fn away(length: u32) -> Text
        ensures { result ≡ replicate length 0 }
    {
        Text { here: None, length }
    }

    /// The tile's part of the blob of its metatile, of which this is the text; it shares the bytes of a text in memory. One that lies
    /// elsewhere is read as zeros: who keeps blobs elsewhere reads them there. `AllocError` where memory runs out, or where the blob
    /// has as many owners as may be.
    pub fn tile(
        &self,
        alloc: Global,
        catalogue: &Catalogue,
        address: &Address,
    ) -> Result<SharedText, AllocError>
        requires valid { IsValid catalogue.now }
        requires tile { IsTile catalogue.now address.now }
        requires blob { length self.now ≡ blob_size catalogue.now (block_of catalogue.now address.now) }
        ensures part { IfOk result (λ text. text ≡ tile_part catalogue.now address.now self.now) }
        ensures sound { IfOk result (λ text. (k : ℕ) → self.now ≡ block_text catalogue.now k (block_of catalogue.now address.now) → text ≡ tile_text catalogue.now k address.now) }
    {
        match &self.here {
            Some(blob) => tile_in(catalogue, address, blob),
            None => {
                let blob = zeros(alloc, self.length)?;
                tile_in(catalogue, address, &blob)
            }
        }
    }
}
