//! How a metatile that is stored, and a record that drops one or sets its uses, change what a replay holds.
ghost use Rattle.std.specs.Prelude.{Contains, IfNone, IfSome, IsSome, OnOk, Some, find, ℕ, ◌<◌, ◌==◌, ◌≡◌, ◌≤◌, if◌then◌else◌};
ghost use Rattle.cabinet.specs.Gaps.{region};
ghost use Rattle.cabinet_records.specs.Placed.{place_in};
ghost use Rattle.cabinet_records.specs.Played.{ClaimsRegion, HasRoom, IsPlayed, LeavesAll, Plays, PlaysOrLacks, places_but};
ghost use Rattle.catalog.specs.Valid.{IsValid};
ghost use Rattle.catalog.specs.declared.catalogue.Catalogue.{Catalogue};
ghost use Rattle.indexmap.specs.IndexMap.{spare};

use crate::replay::allowed::{is_kept_under, may_keep, may_open};
use crate::replay::newer::aim;
use crate::replay::places::{Places, drop_place, put_place};
use crate::replay::progress::ReplayProgress;
use cabinet::{Kept, Text, give_back, law_of_extents};
use catalog::Catalogue;
use extent_map::Extents;
use metatile_plan::MetaKey;
use record_text::Record;
use std::alloc::{AllocError, Global};

/// Makes room for one more to be kept. `AllocError` where memory runs out.
fn make_room(progress: &mut ReplayProgress, alloc: Global) -> Result<(), AllocError>
    ensures same { LeavesAll progress.old progress.new }
    ensures room { OnOk result (HasRoom progress.new) }
{
    let count = progress.store.count();
    law_of_extents(&progress.regions);
    match progress.store.reserve(1) {
        Err(fault) => return Err(fault),
        Ok(()) => {}
    }
    match progress.regions.reserve(alloc, 1) {
        Err(fault) => return Err(fault),
        Ok(()) => {}
    }
    match progress.places.reserve(1) {
        Err(fault) => return Err(fault),
        Ok(()) => {}
    }
    progress.out.reserve(count + 1)
}

/// Gives the older region of a metatile back, takes the one of what is to be kept of it, and tells whether it was free.
fn claim(regions: &mut Extents, older: Option<Kept>, kept: &Kept) -> bool
    requires some { 1 ≤ kept.now.length }
    requires spare { 1 ≤ regions.old.spare }
    requires older { IfSome older (λ t. Contains regions.old.parts (region t)) }
    ensures { ClaimsRegion regions.old older (region kept.now) result regions.new }
{
    give_back(regions, older);
    regions.claim_at(kept.place, kept.length)
}

/// Gives a number a place, and takes that of what was kept before from it.
fn move_place(places: &mut Places, older: Option<Kept>, number: u64, place: u64)
    requires { 0 < spare places.old }
    ensures { (n : ℕ) → place_in places.new.entries n ≡ (if number == n then Some place else places_but older (place_in places.old.entries) n) }
{
    match older {
        None => {}
        Some(older) => drop_place(places, older.number),
    }
    put_place(places, number, place);
}

/// Plays a record that stores a metatile, with the cuts as they are.
fn put(
    progress: &mut ReplayProgress,
    alloc: Global,
    catalogue: &Catalogue,
    kept: Kept,
    place: u64,
) -> Result<bool, AllocError>
    requires valid { IsValid catalogue.now }
    requires played { IsPlayed catalogue.now place progress.old }
    ensures { PlaysOrLacks catalogue.now place progress.old (Record.Stored kept.number kept.meta kept.place kept.length kept.moment kept.uses) result progress.new }
{
    if !may_keep(progress, catalogue, &kept) {
        return Ok(false);
    }
    match make_room(progress, alloc) {
        Err(fault) => return Err(fault),
        Ok(()) => {}
    }
    let older = progress.store.kept_of(&kept.meta);
    if !claim(&mut progress.regions, older, &kept) {
        return Ok(false);
    }
    progress.store.put(kept, Text::away(0));
    move_place(&mut progress.places, older, kept.number, place);
    Ok(true)
}

/// Plays a record that stores a metatile. The cuts are aimed first.
pub fn play_stored(
    progress: &mut ReplayProgress,
    alloc: Global,
    catalogue: &Catalogue,
    kept: Kept,
    place: u64,
) -> Result<bool, AllocError>
    requires valid { IsValid catalogue.now }
    requires played { IsPlayed catalogue.now place progress.old }
    ensures { PlaysOrLacks catalogue.now place progress.old (Record.Stored kept.number kept.meta kept.place kept.length kept.moment kept.uses) result progress.new }
{
    aim(
        &mut progress.cuts,
        alloc,
        catalogue,
        kept.number,
        &kept.meta,
    );
    put(progress, alloc, catalogue, kept, place)
}

/// Plays a record that drops a metatile.
pub fn play_dropped(
    progress: &mut ReplayProgress,
    catalogue: &Catalogue,
    number: u64,
    meta: &MetaKey,
) -> bool
    requires valid { IsValid catalogue.now }
    requires played { (next : ℕ) × IsPlayed catalogue.now next progress.old }
    ensures { (next : ℕ) → IsPlayed catalogue.now next progress.old → Plays catalogue.now next progress.old (Record.Dropped number meta.now) result progress.new }
{
    if !is_kept_under(progress, catalogue, number, meta) {
        return false;
    }
    let Some(kept) = progress.store.kept_of(meta) else {
        unreachable!()
    };
    progress.regions.give(kept.place, kept.length);
    drop_place(&mut progress.places, kept.number);
    progress.store.drop_of(meta);
    true
}

/// Plays a record of uses.
pub fn play_counted(
    progress: &mut ReplayProgress,
    catalogue: &Catalogue,
    number: u64,
    meta: &MetaKey,
    uses: u64,
) -> bool
    requires { IsValid catalogue.now }
    ensures { (next : ℕ) → IsPlayed catalogue.now next progress.old → Plays catalogue.now next progress.old (Record.Uses number meta.now uses) result progress.new }
{
    if !is_kept_under(progress, catalogue, number, meta) {
        return false;
    }
    progress.store.recount(meta, uses);
    true
}

/// Plays a record of an opening.
pub fn play_opened(progress: &mut ReplayProgress, opening: u32, floor: u64) -> bool
    ensures { (c : Catalogue) (next : ℕ) → IsPlayed c next progress.old → Plays c next progress.old (Record.Opened opening floor) result progress.new }
{
    if !may_open(progress, opening, floor) {
        return false;
    }
    progress.opening = Some(opening);
    progress.floor = progress.floor.max(floor);
    true
}
