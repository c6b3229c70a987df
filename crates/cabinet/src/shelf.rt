//! What is kept, with its sums: the shelf of a cabinet, also as the records of a disk give it.
ghost use Rattle.std.specs.List.Sorted.{IsPermutation};
ghost use Rattle.std.specs.Option.{option_map};
ghost use Rattle.std.specs.Prelude.{IfOk, OnErr, OnOk, filter, find, fold, length, map, not, ◌+◌, ◌<◌, ◌==◌, ◌≡◌, ◌≤◌, IsSome, Some};
ghost use Rattle.cabinet.specs.Entered.{AreEntered, CanBeEntered, CanEnter, Enters};
ghost use Rattle.cabinet.specs.History.{is_of, lesser};
ghost use Rattle.cabinet.specs.Shelved.{IsBare};
ghost use Rattle.catalog.specs.LookUp.{IsTile};
ghost use Rattle.catalog.specs.Valid.{IsValid};
ghost use Rattle.raster_field.specs.Blocks.{IsMeta};
ghost use Rattle.served_covers.specs.OfCatalogue.{IsCoverOf};

use crate::blob::blob_bytes;
use crate::judged::{Judged, Unsaved};
use crate::kept::Kept;
use crate::ranking::{KeptRanking, rank};
use crate::shelving::FoundTile;
use crate::sifting::sift;
use crate::store::Store;
use crate::tally::KeptTally;
use crate::text::Text;
use catalog::Catalogue;
use matrix_geometry::Address;
use metatile_plan::MetaKey;
use std::alloc::{AllocError, Global};
use std::marker::Model;
use truncation_list::Cover;

/// Keeps metatiles of a catalogue, each once, within its limits, and counts what they take up. Contracts see the catalogue,
/// what is kept with its blobs, the uses, the count of entries that kept or used, and for how many more there is room.
#[derive(Drop)]
pub struct KeptShelf {
    catalogue: Catalogue,
    store: Store,
    tally: KeptTally,
}

impl Model for KeptShelf {
    ghost use Rattle.std.specs.Prelude.{min};
    ghost use Rattle.cabinet.specs.Shelved.{IsShelved, Shelved};

    ghost Value = { Shelved };

    ghost view = { λ s. record { catalogue = s.catalogue; blobs = s.store.blobs; uses = s.tally.uses.uses; clock = s.tally.uses.now; room = min s.store.spare (min s.tally.extents.spare s.tally.uses.spare) } };

    ghost invariant = { λ s. IsShelved s.catalogue s.store.blobs s.tally.extents s.tally.ledger s.tally.uses };
}

impl KeptShelf {
    ghost use Rattle.cabinet.specs.Entered.{CanEnter, Enters};
    ghost use Rattle.cabinet.specs.Shelved.{Forgets, IsAlike, IsBare, IsFirstToGo, IsUnsavedOn, JudgesOn, Keeps, Marks, Reads, Sifts, Touches, listed, use_on, used_on, used_on_all};
    ghost use Rattle.cabinet.specs.Writing.{IsInOrderBy, rank_on};

    /// A shelf on which nothing is kept. `AllocError` where memory runs out.
    pub fn new(alloc: Global, catalogue: Catalogue) -> Result<KeptShelf, AllocError>
        requires { IsValid catalogue }
        ensures { IfOk result (λ shelf. IsBare catalogue shelf) }
    {
        let tally = KeptTally::new(alloc, &catalogue)?;
        Ok(KeptShelf {
            catalogue,
            store: Store::new(alloc),
            tally,
        })
    }

    /// The catalogue that it was made with.
    pub fn catalogue(&self) -> &Catalogue
        ensures catalogue { result.now ≡ self.now.catalogue }
        ensures valid { IsValid result.now }
    {
        &self.catalogue
    }

    /// Makes room for so many more to be kept. `AllocError` where memory runs out; all else is as before, and no room is
    /// lost.
    pub fn reserve(&mut self, alloc: Global, metatiles: u32) -> Result<(), AllocError>
        ensures same { IsAlike self.old self.new }
        ensures no_less { self.old.room ≤ self.new.room }
        ensures room { OnOk result (metatiles ≤ self.new.room) }
    {
        match self.store.reserve(metatiles as usize) {
            Err(fault) => return Err(fault),
            Ok(()) => {}
        }
        match self.tally.uses.reserve(alloc, metatiles) {
            Err(fault) => return Err(fault),
            Ok(()) => {}
        }
        self.tally.extents.reserve(alloc, metatiles)
    }

    /// Reads a tile out of what is kept of its metatile; `None` exactly where nothing is. `AllocError` where memory runs out.
    pub fn read(&self, alloc: Global, address: &Address) -> Result<Option<FoundTile>, AllocError>
        requires { IsTile self.now.catalogue address.now }
        ensures { IfOk result (λ found. Reads self.now.catalogue self.now.blobs address.now found) }
    {
        self.store.read(alloc, &self.catalogue, address)
    }

    /// Adds a use of a metatile that is kept.
    pub fn touch(&mut self, meta: &MetaKey)
        requires { IsSome (find (λ b. is_of meta.now b.kept) self.old.blobs) }
        ensures touched { Touches meta.now self.old self.new }
        ensures room { self.old.room ≤ self.new.room }
    {
        self.tally.uses.touch(meta);
    }

    /// Which render of a metatile is kept, and where.
    pub fn kept_of(&self, meta: &MetaKey) -> Option<Kept>
        ensures { result ≡ find (is_of meta.now) (listed self.now.blobs) }
    {
        self.store.kept_of(meta)
    }

    /// What is to come of a render that was begun at a moment: whether it fits, in the place of its metatile's older one, if there
    /// is one, and where. The region of the older one is still taken while the gap is looked for.
    pub fn judge(&self, number: u64, meta: &MetaKey, moment: u64) -> Judged
        requires meta { IsMeta self.now.catalogue meta.now }
        requires room { 1 ≤ self.now.room }
        ensures { JudgesOn self.now (record { number = number; meta = meta.now }) moment result }
    {
        if self.store.count_others(meta) >= self.catalogue.kept_limit as usize {
            return Judged::Full;
        }
        let length = blob_bytes(&self.catalogue, meta);
        match self.tally.extents.lowest(length) {
            None => Judged::NoRoom,
            Some(place) => Judged::Fits(Kept {
                number,
                meta: *meta,
                place,
                length,
                moment,
                uses: 0,
            }),
        }
    }

    /// Keeps a render that fits, with its text. It takes no memory.
    pub fn keep(&mut self, kept: Kept, text: Text)
        requires meta { IsMeta self.old.catalogue kept.meta }
        requires fits { JudgesOn self.old (record { number = kept.number; meta = kept.meta }) kept.moment (Judged.Fits kept) }
        requires text { length text ≡ kept.length }
        requires room { 1 ≤ self.old.room }
        ensures keeps { Keeps kept text self.old self.new }
        ensures room { self.old.room ≤ self.new.room + 1 }
    {
        let Some(_place) = self.tally.extents.take(kept.length) else {
            unreachable!()
        };
        self.tally.keep(self.store.kept_of(&kept.meta), kept);
        self.store.put(kept, text);
    }

    /// Keeps a metatile of which nothing is kept, with a blob that lies elsewhere, and with its uses. It takes no memory.
    pub fn enter(&mut self, kept: Kept)
        requires can { CanEnter self.old.catalogue self.old.blobs kept }
        requires room { 1 ≤ self.old.room }
        ensures enters { Enters kept self.old self.new }
        ensures room { self.old.room ≤ self.new.room + 1 }
    {
        let _free = self.tally.extents.claim_at(kept.place, kept.length);
        self.tally.ledger.add(kept.meta.theme.layer, kept.length);
        self.tally.uses.enter(&kept.meta, kept.uses);
        self.store.put(kept, Text::away(kept.length));
    }

    /// Drops each metatile of which the cover is for a tile. It takes no memory.
    pub fn drop_hit(&mut self, cover: &Cover)
        requires { IsCoverOf self.old.catalogue cover.now }
        ensures sifted { Sifts cover.now self.old self.new }
        ensures room { self.old.room ≤ self.new.room }
    {
        sift(&mut self.store, &mut self.tally, &self.catalogue, cover);
    }

    /// The first metatile to go of the scope whose quota is exceeded; `None` exactly where no quota is.
    pub fn first_to_go(&self) -> Option<Kept>
        ensures { IsFirstToGo self.now result }
    {
        let scope = match self.tally.ledger.exceeded() {
            None => return None,
            Some(scope) => scope,
        };
        let Some(meta) = self.tally.uses.victim(scope) else {
            unreachable!()
        };
        let Some(kept) = self.store.kept_of(&meta) else {
            unreachable!()
        };
        Some(kept)
    }

    /// Drops a metatile that is kept. It takes no memory.
    pub fn drop_kept(&mut self, meta: &MetaKey)
        requires { IsSome (find (is_of meta.now) (listed self.old.blobs)) }
        ensures forgets { Forgets meta.now self.old self.new }
        ensures room { self.old.room ≤ self.new.room }
    {
        let Some(kept) = self.store.kept_of(meta) else {
            unreachable!()
        };
        self.tally.forget(kept);
        self.store.drop_of(meta);
    }

    /// The metatile of the least key, field by field, of those with uses that aren't all saved; `None` exactly where all are.
    pub fn first_unsaved(&self) -> Option<Unsaved>
        ensures { IsUnsavedOn self.now result }
    {
        let meta = match self.tally.uses.unsaved() {
            None => return None,
            Some(meta) => meta,
        };
        let Some(uses) = self.tally.uses.uses_of(&meta) else {
            unreachable!()
        };
        let Some(kept) = self.store.kept_of(&meta) else {
            unreachable!()
        };
        Some(Unsaved { kept, uses })
    }

    /// Marks all uses of a metatile that is kept as saved, and tells how many they are. It takes no memory.
    pub fn save(&mut self, meta: &MetaKey) -> u64
        requires { IsSome (find (is_of meta.now) (listed self.old.blobs)) }
        ensures uses { option_map (λ u. u.uses) (use_on self.old meta.now) ≡ Some result }
        ensures marks { Marks meta.now result self.old self.new }
        ensures room { self.old.room ≤ self.new.room }
    {
        let uses = self.tally.uses.saved(meta);
        self.store.recount(meta, uses);
        uses
    }

    /// Lists what is kept, in the order of its last use and then of its key, field by field, in the place of what the list has. It
    /// takes no memory.
    pub fn list_kept(&self, list: &mut KeptRanking)
        requires { length self.now.blobs ≤ list.old.room }
        ensures all { IsPermutation list.new.kept (listed self.now.blobs) }
        ensures order { IsInOrderBy (rank_on self.now) list.new.kept }
        ensures room { list.new.room ≡ list.old.room }
    {
        let _count = self.store.count();
        list.clear();
        rank(&self.store, &self.tally.uses, list);
        list.sort();
    }

    /// The least of the kept numbers and of one that was found before.
    pub fn least_with(&self, was: Option<u64>) -> Option<u64>
        ensures { result ≡ fold lesser was (map (λ b. b.kept.number) self.now.blobs) }
    {
        self.store.least_with(was)
    }

    /// The bytes that the kept metatiles of a layer take.
    pub fn used(&self, layer: u32) -> u64
        requires { layer < length self.now.catalogue.layers }
        ensures { result ≡ used_on self.now layer }
    {
        self.tally.ledger.used(layer)
    }

    /// The bytes that all kept metatiles take.
    pub fn used_all(&self) -> u64
        ensures { result ≡ used_on_all self.now }
    {
        self.tally.ledger.used_all()
    }

    /// How many metatiles of a layer are kept: as many as have uses.
    pub fn kept_in(&self, layer: u32) -> u32
        ensures { result ≡ length (filter (λ b. b.kept.meta.theme.layer == layer) self.now.blobs) }
    {
        self.tally.uses.count_in(layer) as u32
    }

    /// How many metatiles are kept.
    pub fn count(&self) -> u32
        ensures { result ≡ length self.now.blobs }
    {
        self.store.count() as u32
    }
}

/// Makes room for one metatile, and enters it. `AllocError` where memory runs out.
fn enter_one(alloc: Global, shelf: &mut KeptShelf, kept: Kept) -> Result<(), AllocError>
    requires { CanEnter shelf.old.catalogue shelf.old.blobs kept }
    ensures { OnOk result (Enters kept shelf.old shelf.new) }
{
    match shelf.reserve(alloc, 1) {
        Err(fault) => return Err(fault),
        Ok(()) => {}
    }
    shelf.enter(kept);
    Ok(())
}

/// Enters all of a list on a shelf on which nothing is kept. `AllocError` where memory runs out.
fn restore(alloc: Global, shelf: &mut KeptShelf, kept: &[Kept]) -> Result<(), AllocError>
    requires bare { IsBare shelf.old.catalogue shelf.old }
    requires fit { CanBeEntered shelf.old.catalogue kept.now }
    ensures { OnOk result (AreEntered shelf.old.catalogue kept.now shelf.new) }
{
    'restoring: for at in 0..kept.len() {
        match enter_one(alloc, shelf, kept[at]) {
            Err(fault) => return Err(fault),
            Ok(()) => {}
        }
    }
    Ok(())
}

impl KeptShelf {
    /// A shelf on which all of a list is kept, with blobs that lie elsewhere. `AllocError` where memory runs out.
    pub fn of_kept(
        alloc: Global,
        catalogue: Catalogue,
        kept: &[Kept],
    ) -> Result<KeptShelf, AllocError>
        requires valid { IsValid catalogue }
        requires fit { CanBeEntered catalogue kept.now }
        ensures { IfOk result (λ shelf. AreEntered catalogue kept.now shelf) }
    {
        let mut shelf = KeptShelf::new(alloc, catalogue)?;
        match restore(alloc, &mut shelf, kept) {
            Err(fault) => return Err(fault),
            Ok(()) => {}
        }
        Ok(shelf)
    }
}
