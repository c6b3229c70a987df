//! Whether a cache has a record behind those that were played, but for the regions of blobs.
ghost use Rattle.std.specs.List.{AllByRecursion};
ghost use Rattle.std.specs.Option.{option_map_or};
ghost use Rattle.std.specs.Prelude.{IfSome, true, ℕ, ◌<◌, ◌≡◌, ◌≢◌, ◌≤◌, ◌↔◌};
ghost use Rattle.cabinet.specs.History.{but};
ghost use Rattle.cabinet.specs.Shelved.{listed};
ghost use Rattle.cabinet_records.specs.Played.{AreTiedIn, MayKeep, replayed_of};
ghost use Rattle.cabinet_records.specs.Replay.{IsKeptUnder, MayCut, MayOpen, opening_of};
ghost use Rattle.catalog.specs.Valid.{IsValid};

use crate::replay::newer::is_newer;
use crate::replay::places::place_of;
use crate::replay::progress::ReplayProgress;
use cabinet::{Kept, Store};
use catalog::Catalogue;
use metatile_plan::MetaKey;
use raster_field::{blob_size, is_meta};
use served_covers::is_cover_of;
use truncation_list::{Cover, CutList};

/// How many numbers an opening has, with the one that it doesn't give.
const NUMBERS: u64 = 1 << 40;

fn is_later(before: Option<u32>, opening: u32) -> bool
    ensures { (result ≡ true) ↔ IfSome before (λ n. n < opening) }
{
    match before {
        None => true,
        Some(before) => before < opening,
    }
}

/// Whether a number was given by this opening or one before it; by none but 0 where there is none.
fn is_given(number: u64, opening: Option<u32>) -> bool
    ensures { (result ≡ true) ↔ (opening_of number ≤ option_map_or (λ e. e) opening 0) }
{
    let last = match opening {
        None => 0,
        Some(opening) => opening,
    };
    number / NUMBERS <= u64::from(last)
}

/// Whether a floor is below all that is kept. All of it is gone through.
fn is_below(floor: u64, store: &Store) -> bool
    ensures { (result ≡ true) ↔ AllByRecursion (λ t. floor < t.number) (listed store.now.blobs) }
{
    match store.least_with(None) {
        None => true,
        Some(least) => floor < least,
    }
}

/// Whether an opening with this number and floor may follow.
pub fn may_open(progress: &ReplayProgress, opening: u32, floor: u64) -> bool
    ensures { (result ≡ true) ↔ MayOpen (replayed_of progress.now) opening floor }
{
    if !is_later(progress.opening, opening) {
        return false;
    }
    if !is_given(floor, Some(opening)) {
        return false;
    }
    is_below(floor, &progress.store)
}

/// Whether the metatile is of the catalogue, and kept under this number.
pub fn is_kept_under(
    progress: &ReplayProgress,
    catalogue: &Catalogue,
    number: u64,
    meta: &MetaKey,
) -> bool
    requires { IsValid catalogue.now }
    ensures { (result ≡ true) ↔ IsKeptUnder catalogue.now (replayed_of progress.now) number meta.now }
{
    if !is_meta(catalogue, meta) {
        return false;
    }
    match progress.store.kept_of(meta) {
        None => false,
        Some(kept) => kept.number == number,
    }
}

/// Whether a number is above those of all cuts.
fn is_above(cuts: &CutList, number: u64) -> bool
    requires { cuts.now.book.floor ≡ 0 }
    ensures { (result ≡ true) ↔ AllByRecursion (λ k. k.number < number) cuts.now.book.cuts }
{
    if cuts.count() == 0 {
        return true;
    }
    cuts.seen() < number
}

/// Whether a cut with this number and cover may follow.
pub fn may_cut(progress: &ReplayProgress, catalogue: &Catalogue, number: u64, cover: &Cover) -> bool
    requires { progress.now.cuts.book.floor ≡ 0 }
    ensures { (result ≡ true) ↔ MayCut catalogue.now (replayed_of progress.now) number cover.now }
{
    if !is_cover_of(catalogue, cover) {
        return false;
    }
    if !is_given(number, progress.opening) {
        return false;
    }
    is_above(progress.cuts.list(), number)
}

/// Whether nothing else that is kept has the number that a metatile is to be kept under.
fn is_own(progress: &ReplayProgress, number: u64, meta: &MetaKey) -> bool
    requires { (next : ℕ) × AreTiedIn next progress.now }
    ensures { (result ≡ true) ↔ AllByRecursion (λ u. number ≢ u.number) (but meta.now (listed progress.now.store.blobs)) }
{
    match place_of(&progress.places, number) {
        None => true,
        Some(_) => match progress.store.kept_of(meta) {
            None => false,
            Some(kept) => kept.number == number,
        },
    }
}

/// Whether a metatile may be stored, but for its region.
pub fn may_keep(progress: &ReplayProgress, catalogue: &Catalogue, kept: &Kept) -> bool
    requires valid { IsValid catalogue.now }
    requires tied { (next : ℕ) × AreTiedIn next progress.now }
    ensures { (result ≡ true) ↔ MayKeep catalogue.now (replayed_of progress.now) kept.now }
{
    if !is_meta(catalogue, &kept.meta) {
        return false;
    }
    if kept.length != blob_size(catalogue, &kept.meta) {
        return false;
    }
    if !is_given(kept.number, progress.opening) {
        return false;
    }
    if kept.number <= progress.floor {
        return false;
    }
    if !is_own(progress, kept.number, &kept.meta) {
        return false;
    }
    if progress.store.count_others(&kept.meta) >= catalogue.kept_limit as usize {
        return false;
    }
    is_newer(catalogue, &progress.cuts, kept.number, &kept.meta)
}
