//! The hot tier: the texts of the tiles that were read from the disk lately. An ask that it serves reads no disk.
ghost use Rattle.std.specs.List.{AllByRecursion};
ghost use Rattle.std.specs.Prelude.{◌≡◌, ◌⊎◌, [], Contains, IfOk, IfSome, OnOk};
ghost use Rattle.durable_cabinet.specs.Hot.{address_of, hot_tile};

use crate::texts::{HotText, TileKey};
use base::SharedText;
use lru::LruCache;
use matrix_geometry::Address;
use std::alloc::{AllocError, Global};
use std::marker::Model;
use std::num::NonZeroUsize;

/// The texts of the 128 tiles that were put or served last, each with the number of its render. Contracts see them in the order of
/// their last use.
#[derive(Drop)]
pub struct HotTier {
    texts: LruCache<TileKey, HotText>,
}

impl Model for HotTier {
    ghost use Rattle.std.specs.Prelude.{List, map};
    ghost use Rattle.durable_cabinet.specs.Hot.{HotTile, tile_of};

    ghost Value = { List HotTile };

    ghost view = { λ h. map tile_of h.texts.entries };
}

/// The key of a tile.
fn key_of(address: &Address) -> TileKey
    ensures { address_of result ≡ address.now }
{
    TileKey {
        theme: address.theme,
        grid: address.grid,
        z: address.z,
        row: address.row,
        col: address.col,
    }
}

/// A text, where it is of the render of this number. `AllocError` where it has as many owners as may be.
fn text_of_render(found: &HotText, number: u64) -> Result<Option<SharedText>, AllocError>
    ensures { IfOk result (λ found_text. IfSome found_text (λ text. (found.now.number ≡ number) × (text ≡ found.now.text))) }
{
    if found.number != number {
        return Ok(None);
    }
    match found.text.share() {
        Err(fault) => Err(fault),
        Ok(text) => Ok(Some(text)),
    }
}

impl HotTier {
    /// A tier that holds nothing. `AllocError` where memory runs out.
    pub fn new(alloc: Global) -> Result<HotTier, AllocError>
        ensures { IfOk result (λ tier. tier ≡ []) }
    {
        match LruCache::new(alloc, NonZeroUsize::new(128).unwrap()) {
            Err(fault) => Err(fault),
            Ok(texts) => Ok(HotTier { texts }),
        }
    }

    /// The text of a tile, where one of the render of this number is there. It is shared, not copied. `AllocError` where it has as many
    /// owners as may be.
    pub fn text_of(
        &mut self,
        address: &Address,
        number: u64,
    ) -> Result<Option<SharedText>, AllocError>
        ensures found { IfOk result (λ found. IfSome found (λ text. Contains self.old (hot_tile address.now number text))) }
        ensures among { AllByRecursion (Contains self.old) self.new }
    {
        let key = key_of(address);
        self.texts.promote(&key);
        self.text_at(&key, number)
    }

    /// The text that is there by a key, where it is of the render of this number. `AllocError` where it has as many owners as may be.
    fn text_at(&self, key: &TileKey, number: u64) -> Result<Option<SharedText>, AllocError>
        ensures { IfOk result (λ found. IfSome found (λ text. Contains self.now (hot_tile (address_of key.now) number text))) }
    {
        match self.texts.peek(key) {
            None => Ok(None),
            Some(found) => text_of_render(found, number),
        }
    }

    /// Puts the text of a tile, which is shared and not copied, in place of an older one of the tile, or of the text whose last use is
    /// longest ago where the tier is full. `AllocError` where memory runs out; nothing is put then.
    pub fn put(
        &mut self,
        address: &Address,
        number: u64,
        text: &SharedText,
    ) -> Result<(), AllocError>
        ensures among { AllByRecursion (λ x. Contains self.old x ⊎ (x ≡ hot_tile address.now number text.now)) self.new }
        ensures there { OnOk result (Contains self.new (hot_tile address.now number text.now)) }
    {
        let text = match text.share() {
            Err(fault) => return Err(fault),
            Ok(text) => text,
        };
        match self.texts.put(key_of(address), HotText { number, text }) {
            Err(_) => Err(AllocError),
            Ok(_) => Ok(()),
        }
    }
}
