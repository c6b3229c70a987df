//! What a replay comes to at its end: what is kept in the order of its records, and the cuts, purged.
ghost use Rattle.std.specs.List.Sorted.{IsNonDecreasingBy};
ghost use Rattle.std.specs.Prelude.{IfNone, IfSome, IsPermutation, length, unwrap_or, vec_capacity, ℕ, ◌<◌, ◌≡◌, ◌≤◌};
ghost use Rattle.cabinet.specs.Shelved.{listed};
ghost use Rattle.cabinet_records.specs.Placed.{ArePlaced, place_at, place_in};
ghost use Rattle.cabinet_records.specs.Played.{IsPlayed, replayed_of};
ghost use Rattle.cabinet_records.specs.Replay.{book_after};
ghost use Rattle.catalog.specs.declared.catalogue.Catalogue.{Catalogue};

use crate::replay::places::{Places, place_of};
use crate::replay::progress::ReplayProgress;
use crate::restored::Restored;
use cabinet::{Kept, Store};

/// The place of a number, 0 where it has none.
fn place_or_first(places: &Places, number: u64) -> u64
    ensures { result ≡ unwrap_or (place_in places.now.entries number) 0 }
{
    match place_of(places, number) {
        None => 0,
        Some(place) => place,
    }
}

/// Lists what is kept, in the order in which it is held. It takes no memory.
fn list(store: &Store, out: &mut Vec<Kept>)
    requires none { length out.old.items ≡ 0 }
    requires room { length store.now.blobs ≤ vec_capacity out.old }
    ensures { out.new.items ≡ listed store.now.held }
{
    'listing: for at in 0..store.count() {
        out.push_reserved(store.kept_at(at));
    }
}

/// Sorts by the places of the numbers.
fn sort(out: &mut [Kept], places: &Places)
    ensures permutation { IsPermutation out.old out.new }
    ensures sorted { IsNonDecreasingBy (place_at (place_in places.now.entries)) out.new }
{
    out.sort_unstable_by_key(|kept| place_or_first(places, kept.number));
}

/// What is kept, in the order of the records that keep it. It takes no memory.
fn in_order(store: &Store, places: &Places, out: Vec<Kept>) -> Vec<Kept>
    requires placed { (next : ℕ) × ArePlaced (place_in places.now.entries) next (listed store.now.blobs) }
    requires none { length out.items ≡ 0 }
    requires room { length store.now.blobs ≤ vec_capacity out }
    ensures { result.items ≡ listed store.now.blobs }
{
    let _count = store.count();
    let mut kept = out;
    list(store, &mut kept);
    sort(kept.as_mut_slice(), places);
    kept
}

/// What was played is restored to; `None` where more cuts are left than may be.
pub fn restore_within(progress: ReplayProgress, limit: u32) -> Option<Restored>
    requires { (c : Catalogue) × (next : ℕ) × IsPlayed c next progress }
    ensures opening { IfSome result (λ r. r.opening ≡ progress.opening) }
    ensures kept { IfSome result (λ r. r.kept.items ≡ listed progress.store.blobs) }
    ensures book { IfSome result (λ r. r.cuts.book ≡ book_after (replayed_of progress)) }
    ensures few { IfSome result (λ r. length (book_after (replayed_of progress)).cuts ≤ limit) }
    ensures many { IfNone result (limit < length (book_after (replayed_of progress)).cuts) }
{
    let ReplayProgress {
        opening,
        floor,
        store,
        regions: _regions,
        places,
        cuts,
        out,
    } = progress;
    let mut cuts = cuts.into_list();
    cuts.raise(floor);
    cuts.purge(store.least_with(None));
    if cuts.count() > limit {
        return None;
    }
    Some(Restored {
        opening,
        kept: in_order(&store, &places, out),
        cuts,
    })
}
