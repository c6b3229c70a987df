//! What a cut hits of what a replay keeps is dropped, one after the other as it is found by area.
ghost use Rattle.std.specs.Prelude.{length, ℕ, ◌≡◌, ◌≤◌};
ghost use Rattle.cabinet.specs.History.{spared};
ghost use Rattle.cabinet.specs.Shelved.{listed};
ghost use Rattle.cabinet_records.specs.Placed.{AreTied, place_in};
ghost use Rattle.catalog.specs.Valid.{IsValid};
ghost use Rattle.served_covers.specs.OfCatalogue.{IsCoverOf};

use crate::replay::places::{Places, drop_place};
use cabinet::Store;
use catalog::Catalogue;
use extent_map::Extents;
use truncation_list::Cover;

/// Drops each kept metatile of which the cover is for a tile, with its region and the place of its number. Each is dropped before the
/// next one is looked for, from the chunk on in which it was found.
pub fn spare(
    store: &mut Store,
    regions: &mut Extents,
    places: &mut Places,
    catalogue: &Catalogue,
    cover: &Cover,
)
    requires valid { IsValid catalogue.now }
    requires cover { IsCoverOf catalogue.now cover.now }
    requires tied { (next : ℕ) × AreTied next (listed store.old.blobs) regions.old (place_in places.old.entries) }
    ensures spared { listed store.new.blobs ≡ spared catalogue.now cover.now (listed store.old.blobs) }
    ensures tied { (next : ℕ) → AreTied next (listed store.old.blobs) regions.old (place_in places.old.entries) → AreTied next (listed store.new.blobs) regions.new (place_in places.new.entries) }
    ensures size { regions.new.size ≡ regions.old.size }
    ensures few { length store.new.blobs ≤ length store.old.blobs }
{
    let mut from = 0;
    'sparing: loop {
        match store.hit_from(catalogue, cover, from) {
            None => return,
            Some(hit) => {
                regions.give(hit.kept.place, hit.kept.length);
                drop_place(places, hit.kept.number);
                store.drop_of(&hit.kept.meta);
                from = hit.at;
            }
        }
    }
}
