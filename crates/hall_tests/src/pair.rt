//! A hall over an empty cabinet, with two passes, and single calls on it.
ghost use Rattle.std.specs.Prelude.{IfOk, IfSome, ◌≡◌};
ghost use Rattle.catalog.specs.Demo.{demo};
ghost use Rattle.catalog.specs.LookUp.{IsTile};
ghost use Rattle.catalog.specs.Valid.{IsValid};
ghost use Rattle.hall_tests.specs.Fit.{IsFit};
ghost use Rattle.raster_field.specs.Blocks.{IsMeta};
ghost use Rattle.served_covers.specs.OfCatalogue.{IsCoverOf};
ghost use Rattle.tile_service.specs.Session.{IsAtRest};

use base::Clock;
use cabinet::{Cabinet, CutReply, Expired, Keeper, Saved};
use cabinet_chest::{CabinetChest, Counts};
use cache_access::{Access, Refreshed};
use cache_core::Tile;
use cache_hall::{Hall, HallEntry, Shared, get, refresh};
use catalog::Catalogue;
use fixtures::FIRST;
use matrix_geometry::{Address, Filter};
use metatile_plan::MetaKey;
use source_render::Source;
use std::alloc::{AllocError, Global};
use std::sync::Wait;
use truncation_list::Cover;
use turnstile::Pass;

/// A hall and two passes of it.
#[derive(Drop)]
pub struct Pair<K: Keeper> {
    pub hall: Hall<K>,
    pub a: Pass<CabinetChest<K>>,
    pub b: Pass<CabinetChest<K>>,
}

/// A hall over a cabinet of the built-in catalogue.
pub fn pair_of<K: Keeper>(alloc: Global, keeper: K) -> Result<Option<Pair<K>>, AllocError>
    requires demo { (K.state keeper).catalogue ≡ demo }
    ensures { IfOk result (λ o. IfSome o (λ t. IsFit t.hall.turnstile t.hall.catalogue t.a × IsFit t.hall.turnstile t.hall.catalogue t.b)) }
{
    let HallEntry { hall, passes } = Hall::make(alloc, keeper, 2)?;
    let mut passes = passes.into_vec();
    let Some(a) = passes.pop() else {
        return Ok(None);
    };
    let Some(b) = passes.pop() else {
        return Ok(None);
    };
    Ok(Some(Pair { hall, a, b }))
}

/// An empty cabinet in memory of the built-in catalogue.
pub fn empty(alloc: Global) -> Result<Cabinet, AllocError>
    ensures demo { IfOk result (λ c. c.catalogue ≡ demo) }
    ensures valid { IfOk result (λ c. IsValid c.catalogue) }
    ensures rest { IfOk result (λ c. IsAtRest c) }
{
    let catalogue = Catalogue::demo(alloc)?;
    Cabinet::memory(alloc, catalogue, Clock::listed(Vec::new(alloc)))
}

/// A hall over an empty cabinet in memory of the built-in catalogue.
pub fn new_pair(alloc: Global) -> Result<Option<Pair<Cabinet>>, AllocError>
    ensures { IfOk result (λ o. IfSome o (λ t. IsFit t.hall.turnstile t.hall.catalogue t.a × IsFit t.hall.turnstile t.hall.catalogue t.b)) }
{
    pair_of(alloc, empty(alloc)?)
}

/// Truncates all of zoom 0.
pub fn cut<R: Wait, K: Keeper>(
    rt: &R,
    alloc: Global,
    hall: &Hall<K>,
    pass: &mut Pass<CabinetChest<K>>,
) -> Option<u64>
    requires fit { IsFit hall.now.turnstile hall.now.catalogue pass.old }
    ensures { IsFit hall.now.turnstile hall.now.catalogue pass.new }
{
    let access = Shared { rt, hall };
    match access.cut(alloc, pass, &first_cover()) {
        Ok(CutReply::Done(number)) => Some(number),
        _ => None,
    }
}

/// What is kept of all layers.
pub fn counted<R: Wait, K: Keeper>(
    rt: &R,
    hall: &Hall<K>,
    pass: &mut Pass<CabinetChest<K>>,
) -> Counts
    requires fit { IsFit hall.now.turnstile hall.now.catalogue pass.old }
    ensures { IsFit hall.now.turnstile hall.now.catalogue pass.new }
{
    let access = Shared { rt, hall };
    access.usage(pass, 1)
}

/// Whether nothing expires, and whose uses are saved then.
pub fn is_kept_up<R: Wait, K: Keeper>(
    rt: &R,
    hall: &Hall<K>,
    pass: &mut Pass<CabinetChest<K>>,
) -> bool
    requires fit { IsFit hall.now.turnstile hall.now.catalogue pass.old }
{
    let access = Shared { rt, hall };
    access.expire(pass) == Expired::Within
        && access.save_uses(pass) == Saved::Done(FIRST)
        && access.save_uses(pass) == Saved::Within
}

/// The cover of the one tile at zoom 0.
fn first_cover() -> Cover
    ensures { IsCoverOf demo result }
{
    Cover {
        layer: 0,
        grid: 0,
        z_start: 0,
        z_stop: 0,
        bounds: None,
        filter: Filter {
            style: None,
            dims: [None; 4],
        },
    }
}

/// The one metatile at zoom 0.
fn first_meta() -> MetaKey
    ensures { IsMeta demo result }
{
    FIRST
}

/// Refreshes the one metatile at zoom 0.
pub fn refreshed<R: Wait, K: Keeper, S: Source>(
    rt: &R,
    alloc: Global,
    hall: &Hall<K>,
    pass: &mut Pass<CabinetChest<K>>,
    source: &mut S,
    is_forced: bool,
) -> Option<Refreshed>
    requires fit { IsFit hall.now.turnstile hall.now.catalogue pass.old }
    ensures { IsFit hall.now.turnstile hall.now.catalogue pass.new }
{
    refresh(rt, alloc, hall, pass, source, &first_meta(), is_forced).ok()
}

/// Gets a tile.
pub fn got<R: Wait, K: Keeper, S: Source>(
    rt: &R,
    alloc: Global,
    hall: &Hall<K>,
    pass: &mut Pass<CabinetChest<K>>,
    source: &mut S,
    address: &Address,
) -> Option<Tile>
    requires fit { IsFit hall.now.turnstile hall.now.catalogue pass.old }
    requires tile { IsTile demo address.now }
    ensures { IsFit hall.now.turnstile hall.now.catalogue pass.new }
{
    get(rt, alloc, hall, pass, source, address).ok()
}
