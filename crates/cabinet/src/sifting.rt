//! What a truncation hits of what is kept is forgotten and dropped, one after the other as it is found by area.
ghost use Rattle.std.specs.Prelude.{filter, not, ◌≡◌, ◌≤◌};
ghost use Rattle.cabinet.specs.Hits.{hits_of};
ghost use Rattle.cabinet.specs.Shelved.{IsShelved, LeavesUses, with_spared};
ghost use Rattle.catalog.specs.Valid.{IsValid};
ghost use Rattle.expiry_policy.specs.Victims.{use_of};
ghost use Rattle.served_covers.specs.OfCatalogue.{IsCoverOf};

use crate::store::Store;
use crate::tally::KeptTally;
use catalog::Catalogue;
use truncation_list::Cover;

/// Drops each kept metatile of which the cover is for a tile. Each is dropped before the next one is looked for, from the chunk on in
/// which it was found.
pub fn sift(store: &mut Store, tally: &mut KeptTally, catalogue: &Catalogue, cover: &Cover)
    requires cover { IsCoverOf catalogue.now cover.now }
    requires shelved { IsShelved catalogue.now store.old.blobs tally.old.extents tally.old.ledger tally.old.uses }
    ensures spared { store.new.blobs ≡ filter (λ b. not (hits_of catalogue.now cover.now b.kept.meta)) store.old.blobs }
    ensures shelved { IsShelved catalogue.now store.new.blobs tally.new.extents tally.new.ledger tally.new.uses }
    ensures uses { LeavesUses tally.old.uses tally.old.uses.now (with_spared catalogue.now cover.now (λ m. use_of tally.old.uses m)) tally.new.uses }
    ensures room { store.old.spare ≤ store.new.spare }
    ensures regions { tally.old.extents.spare ≤ tally.new.extents.spare }
    ensures keys { tally.old.uses.spare ≤ tally.new.uses.spare }
{
    let mut from = 0;
    'sifting: loop {
        match store.hit_from(catalogue, cover, from) {
            None => return,
            Some(hit) => {
                tally.forget(hit.kept);
                store.drop_of(&hit.kept.meta);
                from = hit.at;
            }
        }
    }
}
