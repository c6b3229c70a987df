//! The kept metatiles with their blobs, in a map by metatile, and their keys by area. The blobs lie in memory, beside the entries, or
//! elsewhere.
//! Contracts see what is kept in the order in which it was kept, though the map's order is another.
ghost use Rattle.std.specs.List.{AllByRecursion};
ghost use Rattle.std.specs.Option.{option_map};
ghost use Rattle.std.specs.Prelude.{[], Bool, IfNone, IfOk, IfSome, None, OnOk, Some, false, filter, find, fold, if◌then◌else◌, length, map, not, option_copied, slice_get, true, ℕ, ◌+◌, ◌++◌, ◌<◌, ◌^◌, ◌≡◌, ◌≤◌, ◌∷◌};
ghost use Rattle.cabinet.specs.Fresh.{ApartBy};
ghost use Rattle.cabinet.specs.History.{is_of, lesser, with_uses};
ghost use Rattle.cabinet.specs.Hits.{hits_of};
ghost use Rattle.cabinet.specs.declared.kept.KeptBlob.{KeptBlob};
ghost use Rattle.catalog.specs.LookUp.{IsTile};
ghost use Rattle.catalog.specs.Valid.{IsValid};
ghost use Rattle.kept_areas.specs.Areas.{IsClear, number_at};
ghost use Rattle.metatile_plan.specs.Keys.{same_meta};
ghost use Rattle.metatile_plan.specs.declared.metatile.MetaKey.{MetaKey};
ghost use Rattle.served_covers.specs.OfCatalogue.{IsCoverOf};

use crate::held::{Held, blob_of, drop_of, kept_at, kept_in, put, recount};
use crate::hitting::{factors_of, grid_of};
use crate::kept::{Blob, Kept};
use crate::shelving::{FoundTile, KeptHit};
use crate::text::Text;
use base::Trace;
use catalog::Catalogue;
use indexmap::IndexMap;
use kept_areas::KeptAreas;
use matrix_geometry::Address;
use metatile_plan::MetaKey;
use raster_field::block_of;
use std::alloc::{AllocError, Global};
use std::marker::Model;
use truncation_list::Cover;

/// Keeps metatiles with their blobs. Contracts see both, in the order in which they were kept and in an order of which nothing
/// is said, and for how many more there is room.
#[derive(Drop)]
pub struct Store {
    held: Held,
    /// The metatiles with their numbers, in which those that a cover hits are found.
    areas: KeptAreas,
    /// The metatiles in the order in which they were put, which contracts alone read.
    puts: Trace<MetaKey>,
}

impl Model for Store {
    ghost use Rattle.std.specs.Prelude.{min};
    ghost use Rattle.indexmap.specs.IndexMap.{spare as places};
    ghost use Rattle.cabinet.specs.Ordered.{IsStored, held_of, in_order, order_of};
    ghost use Rattle.cabinet.specs.Shelved.{Stored};

    ghost Value = { Stored };

    ghost view = { λ s. record { blobs = in_order (order_of s.puts.entries) (held_of s.held.entries); held = held_of s.held.entries; chunks = s.areas.chunks; spare = min (places s.held) s.areas.spare } };

    ghost invariant = { λ s. IsStored (in_order (order_of s.puts.entries) (held_of s.held.entries)) (held_of s.held.entries) s.areas };
}

/// Gives what is kept of a metatile its number among the keys by area, in the place of the older one where something was held of it.
fn note(areas: &mut KeptAreas, kept: &Kept, was_held: bool)
    requires room { 1 ≤ areas.old.spare }
    requires fresh { was_held ≡ false → number_at areas.old kept.now.meta ≡ None }
    ensures numbers { (m : MetaKey) → number_at areas.new m ≡ (if same_meta m kept.now.meta then Some kept.now.number else number_at areas.old m) }
    ensures spare { areas.old.spare ≤ areas.new.spare + 1 }
{
    if was_held {
        areas.put(&kept.meta, kept.number);
        return;
    }
    areas.enter(&kept.meta, kept.number);
}

impl Store {
    ghost use Rattle.std.specs.List.Sorted.{IsPermutation};
    ghost use Rattle.cabinet.specs.Ordered.{as_kept, held_at};
    ghost use Rattle.cabinet.specs.Shelved.{Reads};
    ghost use Rattle.cabinet.specs.State.{IsLong, blobs_counted};

    /// A store that keeps nothing.
    pub fn new(alloc: Global) -> Store
        ensures { result.blobs ≡ [] }
    {
        Store {
            held: IndexMap::new(alloc),
            areas: KeptAreas::new(alloc),
            puts: Trace::new(),
        }
    }

    /// Makes room for so many more. `AllocError` where memory runs out; what is kept is then as before, and no room is lost.
    pub fn reserve(&mut self, metatiles: usize) -> Result<(), AllocError>
        ensures blobs { self.new.blobs ≡ self.old.blobs }
        ensures no_less { self.old.spare ≤ self.new.spare }
        ensures spare { OnOk result (metatiles ≤ self.new.spare) }
    {
        match self.held.reserve(metatiles) {
            Err(fault) => return Err(fault),
            Ok(()) => {}
        }
        self.areas.reserve(metatiles)
    }

    /// How many are kept.
    pub fn count(&self) -> usize
        ensures count { result ≡ length self.now.blobs }
        ensures held { result ≡ length self.now.held }
        ensures order { IsPermutation self.now.blobs self.now.held }
        ensures once { ApartBy (λ b. b.kept.meta) self.now.blobs }
        ensures small { result < 2 ^ 63 }
    {
        self.held.len()
    }

    /// Which one is held at an index.
    pub fn kept_at(&self, index: usize) -> Kept
        requires { index < length self.now.held }
        ensures at { (blob : KeptBlob) × (result ≡ blob.kept) × (slice_get self.now.held index ≡ Some blob) }
        ensures kept { find (is_of result.meta) (map (λ b. b.kept) self.now.blobs) ≡ Some result }
    {
        kept_at(&self.held, index)
    }

    /// What is held of a metatile.
    fn get(&self, meta: &MetaKey) -> Option<&Blob>
        ensures { option_map (λ b. as_kept (meta.now, b)) (option_copied result) ≡ held_at self.now.blobs meta.now }
    {
        blob_of(&self.held, meta)
    }

    /// Reads a tile out of what is kept of its metatile; `None` exactly where nothing is. `AllocError` where memory runs out.
    pub fn read(
        &self,
        alloc: Global,
        catalogue: &Catalogue,
        address: &Address,
    ) -> Result<Option<FoundTile>, AllocError>
        requires valid { IsValid catalogue.now }
        requires tile { IsTile catalogue.now address.now }
        requires lengths { AllByRecursion (IsLong catalogue.now) self.now.blobs }
        ensures { IfOk result (λ found. Reads catalogue.now self.now.blobs address.now found) }
    {
        let meta = block_of(catalogue, address);
        match self.get(&meta) {
            None => Ok(None),
            Some(blob) => {
                let (number, moment) = (blob.number, blob.moment);
                let text = blob.text.tile(alloc, catalogue, address)?;
                Ok(Some(FoundTile {
                    number,
                    moment,
                    text,
                }))
            }
        }
    }

    /// Which render of a metatile is kept, and where.
    pub fn kept_of(&self, meta: &MetaKey) -> Option<Kept>
        ensures { result ≡ find (is_of meta.now) (map (λ b. b.kept) self.now.blobs) }
    {
        match self.get(meta) {
            Some(blob) => Some(kept_in(meta, blob)),
            None => None,
        }
    }

    /// How many other metatiles are kept.
    pub fn count_others(&self, meta: &MetaKey) -> usize
        ensures { result ≡ length (filter (λ b. not (is_of meta.now b.kept)) self.now.blobs) }
    {
        let count = self.count();
        match self.get(meta) {
            Some(_) => count - 1,
            None => count,
        }
    }

    /// The least of the kept numbers and of one that was found before.
    pub fn least_with(&self, was: Option<u64>) -> Option<u64>
        ensures { result ≡ fold lesser was (map (λ b. b.kept.number) self.now.blobs) }
    {
        self.areas.least_with(was)
    }

    /// Keeps a metatile in the place of its older render, if there is one. It takes no memory.
    pub fn put(&mut self, kept: Kept, text: Text)
        requires { 1 ≤ self.old.spare }
        ensures blobs { self.new.blobs ≡ filter (λ b. not (is_of kept.meta b.kept)) self.old.blobs ++ record { kept = kept; text = text } ∷ [] }
        ensures spare { self.old.spare ≤ self.new.spare + 1 }
    {
        let was_held = put(&mut self.held, kept, text);
        note(&mut self.areas, &kept, was_held);
        self.puts = self.puts.and(&kept.meta);
    }

    /// Sets the uses of a metatile, where it is kept. It stays where it is in the order, and no memory is taken.
    pub fn recount(&mut self, meta: &MetaKey, uses: u64)
        ensures blobs { self.new.blobs ≡ blobs_counted meta.now uses self.old.blobs }
        ensures kept { map (λ b. b.kept) self.new.blobs ≡ map (with_uses meta.now uses) (map (λ b. b.kept) self.old.blobs) }
        ensures spare { self.old.spare ≤ self.new.spare }
    {
        recount(&mut self.held, meta, uses);
    }

    /// Drops what is kept of a metatile. Where no key of the first so many chunks is hit, so it is afterwards.
    pub fn drop_of(&mut self, meta: &MetaKey)
        ensures blobs { self.new.blobs ≡ filter (λ b. not (is_of meta.now b.kept)) self.old.blobs }
        ensures clear { (is_hit : MetaKey → Bool) (count : ℕ) → IsClear is_hit count self.old.chunks → IsClear is_hit count self.new.chunks }
        ensures spare { self.old.spare ≤ self.new.spare }
    {
        drop_of(&mut self.held, meta);
        self.areas.leave(meta);
    }

    /// A kept metatile that a cover hits, the first in the chunks of keys from one on. Where none is hit in the chunks before that one,
    /// there is none in those before the chunk of the answer, and `None` exactly where none at all is hit.
    pub fn hit_from(&self, catalogue: &Catalogue, cover: &Cover, from: usize) -> Option<KeptHit>
        requires valid { IsValid catalogue.now }
        requires cover { IsCoverOf catalogue.now cover.now }
        ensures kept { IfSome result (λ hit. find (is_of hit.kept.meta) (map (λ b. b.kept) self.now.blobs) ≡ Some hit.kept) }
        ensures hit { IfSome result (λ hit. hits_of catalogue.now cover.now hit.kept.meta ≡ true) }
        ensures clear { IfSome result (λ hit. IsClear (hits_of catalogue.now cover.now) from self.now.chunks → IsClear (hits_of catalogue.now cover.now) hit.at self.now.chunks) }
        ensures none { IfNone result (IsClear (hits_of catalogue.now cover.now) from self.now.chunks → AllByRecursion (λ b. hits_of catalogue.now cover.now b.kept.meta ≡ false) self.now.blobs) }
    {
        let grid = grid_of(catalogue, cover);
        let factors = factors_of(catalogue, cover, grid);
        let hit = match self.areas.hit_from(&factors, grid, cover, from) {
            None => return None,
            Some(hit) => hit,
        };
        let Some(kept) = self.kept_of(&hit.meta) else {
            unreachable!()
        };
        Some(KeptHit { at: hit.at, kept })
    }
}
