//! The hall, and how it is opened.
ghost use Rattle.std.specs.Prelude.{All, Bool, IfErr, IfOk, length, true, ◌<◌, ◌≡◌, ◌≢◌, ◌≤◌};
ghost use Rattle.cabinet.specs.State.{IsSound, fronted, now};
ghost use Rattle.cache_hall.specs.Opened.{IsFirstPass, Knows};
ghost use Rattle.cache_hall.specs.Turned.{IsPassOf};
ghost use Rattle.turnstile.specs.Line.{AreInLine};

use base::Bell;
use cabinet::Keeper;
use cabinet_chest::CabinetChest;
use catalog::Catalogue;
use exact_ratio::Items;
use std::alloc::{AllocError, Global};
use std::sync::Wait;
use std::time::Clock;
use turnstile::{Entry, Pass, Turnstile};

/// A cabinet behind a turnstile, with its catalogue.
#[derive(Drop)]
pub struct Hall<K: Keeper> {
    pub catalogue: Catalogue,
    pub turnstile: Turnstile<CabinetChest<K>>,
    /// Rung where a render ends or a truncation is done, for those that wait for a render of their metatile and for who keeps quotas.
    pub(crate) changes: Bell,
}

/// A hall, and passes of it.
#[derive(Drop)]
pub struct HallEntry<K: Keeper> {
    pub hall: Hall<K>,
    pub passes: Items<Pass<CabinetChest<K>>>,
}

impl<K: Keeper> Hall<K> {
    /// How often something may have been kept, dropped or truncated. To be read before the look after which the caller may rest.
    pub fn changes(&self) -> u64 {
        self.changes.rings()
    }

    /// Sleeps until something may have been kept, dropped or truncated, unless it was since `heard` was read.
    pub fn rest<R: Wait>(&self, rt: &R, heard: u64) {
        self.changes.sleep(rt, heard);
    }

    /// Sleeps likewise, but for no longer than so many milliseconds.
    pub fn rest_for<R: Wait + Clock>(&self, rt: &R, heard: u64, milliseconds: u64) {
        self.changes.sleep_for(rt, heard, milliseconds);
    }

    /// Wakes all that rest.
    pub fn wake<R: Wait>(&self, rt: &R) {
        self.changes.ring_all(rt);
    }

    /// A hall over a cabinet, with 1 to 64 passes. Each pass has seen the cabinet's book, and made nothing.
    ///
    /// The caller picks the mark of being told, which says that the cabinet is sound, and which never changes. Where memory runs
    /// out, the cabinet is dropped.
    pub fn make(alloc: Global, keeper: K, passes: u32) -> Result<HallEntry<K>, AllocError>
        ghost told: { Bool }
        requires passes { (0 < passes) × (passes ≤ 64) }
        requires sound { told ≡ true → IsSound (K.state keeper) }
        ensures catalogue { IfOk result (λ e. e.hall.catalogue ≡ (K.state keeper).catalogue) }
        ensures count { IfOk result (λ e. (length e.passes ≡ passes) × (e.hall.turnstile.passes ≡ passes)) }
        ensures own { IfOk result (λ e. All (IsPassOf e.hall.turnstile.table e.hall.catalogue) e.passes) }
        ensures each { IfOk result (λ e. All (IsFirstPass told (fronted (now (K.state keeper)))) e.passes) }
    {
        let catalogue = match keeper.catalogue().copy(alloc) {
            Err(fault) => return Err(fault),
            Ok(catalogue) => catalogue,
        };
        match Turnstile::make(alloc, CabinetChest { keeper }, passes) {
            Err(fault) => Err(fault),
            Ok(Entry { turnstile, passes }) => Ok(HallEntry {
                hall: Hall {
                    catalogue,
                    turnstile,
                    changes: Bell::new(),
                },
                passes,
            }),
        }
    }

    /// The cabinet, where all passes are given. It is one of which each of them may know: its book answers for all that any of
    /// them has seen. All turns that they made stand in one line: of any two, the one found all that the other left. Where passes are
    /// missing, all is handed back.
    pub fn close(self, passes: Vec<Pass<CabinetChest<K>>>) -> Result<K, HallEntry<K>>
        requires own { All (λ p. p.table ≡ self.turnstile.table) passes.items }
        ensures closed { IfOk result (λ keeper. (length passes.items ≡ self.turnstile.passes) × All (Knows (K.state keeper)) passes.items × AreInLine passes.items) }
        ensures refused { IfErr result (λ e. (length passes.items ≢ self.turnstile.passes) × (e.hall ≡ self) × (e.passes ≡ passes.items)) }
    {
        let Hall {
            catalogue,
            turnstile,
            changes,
        } = self;
        match turnstile.close(passes) {
            Ok(CabinetChest { keeper }) => Ok(keeper),
            Err(Entry { turnstile, passes }) => Err(HallEntry {
                hall: Hall {
                    catalogue,
                    turnstile,
                    changes,
                },
                passes,
            }),
        }
    }
}
