//! The upkeep of the cache while it is served: metatiles are dropped until no quota is exceeded, and uses are saved.
ghost use Rattle.std.specs.List.{list_any};
ghost use Rattle.std.specs.Prelude.{IsTrue, is_some, ◌≡◌};
ghost use Rattle.cache_hall.specs.Turned.{IsPassOf};
ghost use Rattle.server_workers.specs.Upkept.{HasKeptUp, has_quota};

use cabinet::Keeper;
use cabinet_chest::CabinetChest;
use cache_access::{expire_until_within, save_uses_of};
use cache_hall::{Hall, Shared};
use catalog::{Catalogue, Layer};
use std::sync::Wait;
use std::sync::atomic::{AtomicBool, Ordering};
use std::time::Clock;
use turnstile::Pass;

/// How many milliseconds lie at least between two rounds of saving uses, and how long the upkeep sleeps at most.
const SAVING: u64 = 1000;

/// Of how many metatiles a round saves the uses at most, one turn each.
const ROUND: u64 = 8;

/// What tells others that a work has ended.
#[derive(Drop)]
pub(crate) struct Shift {
    is_over: AtomicBool,
}

impl Shift {
    /// A shift that goes on.
    pub(crate) fn new() -> Shift {
        Shift {
            is_over: AtomicBool::new(false),
        }
    }

    /// Ends it. Who rests has to be woken after this.
    pub(crate) fn end(&self) {
        self.is_over.store(true, Ordering::SeqCst);
    }

    /// Whether it has ended.
    pub(crate) fn is_over(&self) -> bool {
        self.is_over.load(Ordering::SeqCst)
    }
}

/// Whether some layer has a quota of its own.
fn has_layer_quota(layers: &[Layer]) -> bool
    ensures { result ≡ list_any (λ l. is_some l.quota) layers.now }
{
    layers.iter().any(|layer| layer.quota.is_some())
}

/// Whether some quota is set: that of all layers, or a layer's.
#[tactic(auto, using(crate::proofs::Upkept::either_first, crate::proofs::Upkept::either_second))]
fn has_quota(catalogue: &Catalogue) -> bool
    ensures { result ≡ has_quota catalogue.now }
{
    if catalogue.quota.is_some() {
        return true;
    }
    has_layer_quota(catalogue.layers.as_slice())
}

/// Drops metatiles until no quota is exceeded or the disk fails.
#[tactic(auto, using(crate::proofs::Upkept::kept_by_drops))]
fn expire_all<R: Wait, K: Keeper>(rt: &R, hall: &Hall<K>, pass: &mut Pass<CabinetChest<K>>)
    requires { IsPassOf hall.now.turnstile.table hall.now.catalogue pass.old }
    ensures of { IsPassOf hall.now.turnstile.table hall.now.catalogue pass.new }
    ensures keeps { HasKeptUp hall.now.catalogue pass.old pass.new }
{
    let _ = expire_until_within(&Shared { rt, hall }, pass, u64::MAX);
}

/// Saves uses until all are saved or the disk fails.
#[tactic(auto, using(crate::proofs::Upkept::kept_by_savings))]
fn save_all<R: Wait, K: Keeper>(rt: &R, hall: &Hall<K>, pass: &mut Pass<CabinetChest<K>>)
    requires of { IsPassOf hall.now.turnstile.table hall.now.catalogue pass.old }
    requires quota { IsTrue (has_quota hall.now.catalogue) }
    ensures of { IsPassOf hall.now.turnstile.table hall.now.catalogue pass.new }
    ensures keeps { HasKeptUp hall.now.catalogue pass.old pass.new }
{
    let _ = save_uses_of(&Shared { rt, hall }, pass, u64::MAX);
}

/// Saves the uses of a few metatiles, one turn each, until all are saved or the disk fails. Who waits for a turn has it in between.
#[tactic(auto, using(crate::proofs::Upkept::kept_by_savings))]
fn save_round<R: Wait, K: Keeper>(rt: &R, hall: &Hall<K>, pass: &mut Pass<CabinetChest<K>>)
    requires of { IsPassOf hall.now.turnstile.table hall.now.catalogue pass.old }
    requires quota { IsTrue (has_quota hall.now.catalogue) }
    ensures of { IsPassOf hall.now.turnstile.table hall.now.catalogue pass.new }
    ensures keeps { HasKeptUp hall.now.catalogue pass.old pass.new }
{
    let _ = save_uses_of(&Shared { rt, hall }, pass, ROUND);
}

/// The time in milliseconds, on a clock that never goes back. A clock that can't be read stands still.
fn time<R: Clock>(rt: &R) -> u64 {
    match rt.monotonic() {
        Ok(time) => u64::try_from(time.as_millis()).unwrap_or(u64::MAX),
        Err(_) => 0,
    }
}

/// Saves the uses of a few metatiles where it is time for it. When that was done last.
#[tactic(auto, using(crate::proofs::Upkept::kept_nothing))]
fn save_in_time<R: Wait + Clock, K: Keeper>(
    rt: &R,
    hall: &Hall<K>,
    pass: &mut Pass<CabinetChest<K>>,
    last: u64,
) -> u64
    requires of { IsPassOf hall.now.turnstile.table hall.now.catalogue pass.old }
    requires quota { IsTrue (has_quota hall.now.catalogue) }
    ensures of { IsPassOf hall.now.turnstile.table hall.now.catalogue pass.new }
    ensures keeps { HasKeptUp hall.now.catalogue pass.old pass.new }
{
    let now = time(rt);
    if now.saturating_sub(last) < SAVING {
        return last;
    }
    save_round(rt, hall, pass);
    now
}

/// Where something may have changed metatiles are dropped until no quota is exceeded, and at most once a second the uses of a few are
/// saved; between these it sleeps.
#[tactic(auto, using(crate::proofs::Upkept::kept_nothing, crate::proofs::Upkept::kept_more))]
fn keep_quotas<R: Wait + Clock, K: Keeper>(
    rt: &R,
    hall: &Hall<K>,
    shift: &Shift,
    pass: &mut Pass<CabinetChest<K>>,
)
    requires of { IsPassOf hall.now.turnstile.table hall.now.catalogue pass.old }
    requires quota { IsTrue (has_quota hall.now.catalogue) }
    ensures of { IsPassOf hall.now.turnstile.table hall.now.catalogue pass.new }
    ensures keeps { HasKeptUp hall.now.catalogue pass.old pass.new }
{
    let mut saved = time(rt);
    'keeping: for _ in rt.forever() {
        let heard = hall.changes();
        let is_over = shift.is_over();
        expire_all(rt, hall, pass);
        if is_over {
            return;
        }
        saved = save_in_time(rt, hall, pass, saved);
        hall.rest_for(rt, heard, SAVING);
    }
    unreachable!()
}

/// Sleeps until the shift has ended.
fn wait_for_end<R: Wait, K: Keeper>(rt: &R, hall: &Hall<K>, shift: &Shift) {
    for _ in rt.forever() {
        let heard = hall.changes();
        if shift.is_over() {
            return;
        }
        hall.rest(rt, heard);
    }
    unreachable!()
}

/// Keeps the cache up: metatiles are dropped until no quota is exceeded, and uses are saved, by a few at a time, and at the end all of
/// them. It does nothing else to the cache, and where no quota is set nothing at all.
#[tactic(auto, using(crate::proofs::Upkept::kept_nothing, crate::proofs::Upkept::kept_more))]
pub(crate) fn keep_up<R: Wait + Clock, K: Keeper>(
    rt: &R,
    hall: &Hall<K>,
    shift: &Shift,
    pass: &mut Pass<CabinetChest<K>>,
)
    requires { IsPassOf hall.now.turnstile.table hall.now.catalogue pass.old }
    ensures of { IsPassOf hall.now.turnstile.table hall.now.catalogue pass.new }
    ensures keeps { HasKeptUp hall.now.catalogue pass.old pass.new }
{
    if has_quota(&hall.catalogue) {
        keep_quotas(rt, hall, shift, pass);
        save_all(rt, hall, pass);
        return;
    }
    wait_for_end(rt, hall, shift);
}
