//! A chunk: a short list of keys in memory of its own, with their bounds.
ghost use Rattle.std.specs.Prelude.{IfNone, IfOk, IfSome, IsSome, IsTrue, None, [], insert, length, remove, slice_index_or, take, true, vec_capacity, vec_len, ◌+◌, ◌++◌, ◌<◌, ◌≡◌, ◌≤◌};
ghost use Rattle.catalog.specs.Valid.{IsGrid};
ghost use Rattle.kept_areas.specs.Areas.{NoneHit, least_in, number_in};
ghost use Rattle.kept_areas.specs.Kept.{IsEntered, chunk_room};
ghost use Rattle.metatile_locks.specs.Reach.{IsAimed};
ghost use Rattle.metatile_locks.specs.Running.{IsPlanOn, hits_in};
ghost use Rattle.metatile_plan.specs.Keys.{same_meta};
ghost use Rattle.truncation_list.specs.Covers.{IsWithinReach};

use crate::bounds::{UNBOUNDED, bounds_of, bounds_without, may_have, may_hit, widened};
use crate::order::{is_before, place_in};
use crate::side::Sides;
use crate::spot::KeptSpot;
use crate::table::{hit_in, index_in, least_of, lesser};
use catalog::Grid;
use matrix_geometry::Theme;
use metatile_locks::Aim;
use metatile_plan::{Factors, MetaKey, same_meta};
use std::alloc::{AllocError, Global};
use std::marker::Model;
use truncation_list::Cover;

/// How many keys a chunk has room for.
pub const ROOM: usize = 512;

/// A key behind all others.
const LAST: MetaKey = MetaKey {
    theme: Theme {
        layer: u32::MAX,
        style: u32::MAX,
        dims: [u32::MAX; 4],
    },
    grid: u32::MAX,
    z: u32::MAX,
    row: u32::MAX,
    col: u32::MAX,
};

/// Puts a key before the one at an index, with no memory taken.
fn insert_at(spots: &mut Vec<KeptSpot>, index: usize, spot: &KeptSpot)
    requires room { vec_len spots.old < vec_capacity spots.old }
    requires within { index ≤ vec_len spots.old }
    ensures items { spots.new.items ≡ insert spots.old.items index spot.now }
    ensures capacity { vec_capacity spots.old ≤ vec_capacity spots.new }
{
    let _ = spots.insert(index, *spot);
}

/// A chunk. Contracts see its keys.
#[derive(Drop)]
pub struct Area {
    bounds: Sides,
    /// Its keys are meant to come not before this one.
    first: MetaKey,
    spots: Vec<KeptSpot>,
}

impl Model for Area {
    ghost use Rattle.std.specs.Prelude.{List, length, vec_capacity, ◌≤◌};
    ghost use Rattle.kept_areas.specs.declared.spot.KeptSpot.{KeptSpot};
    ghost use Rattle.kept_areas.specs.Bounds.{AreBounded};
    ghost use Rattle.kept_areas.specs.Kept.{chunk_room};

    ghost Value = { List KeptSpot };

    ghost view = { λ a. a.spots.items };

    ghost invariant = { λ a. (chunk_room ≤ vec_capacity a.spots) × (length a.spots.items ≤ chunk_room) × AreBounded a.spots.items a.bounds };
}

impl Area {
    /// A chunk with no key. `AllocError` where memory runs out.
    pub fn new(alloc: Global) -> Result<Area, AllocError>
        ensures { IfOk result (λ a. a ≡ []) }
    {
        let spots = Vec::with_capacity(alloc, ROOM)?;
        Ok(Area {
            bounds: UNBOUNDED,
            first: LAST,
            spots,
        })
    }

    /// Its keys.
    pub fn spots(&self) -> &[KeptSpot]
        ensures { result.now ≡ self.now }
    {
        self.spots.as_slice()
    }

    /// How many keys it has.
    pub fn len(&self) -> usize
        ensures len { result ≡ length self.now }
        ensures most { length self.now ≤ chunk_room }
    {
        self.spots.as_slice().len()
    }

    /// Whether a key is meant to stand in it, or in one behind it.
    pub fn is_for(&self, meta: &MetaKey) -> bool {
        !is_before(meta, &self.first)
    }

    /// Lays down which keys are meant to stand in it: those that come not before this one.
    pub fn begin_at(&mut self, meta: &MetaKey)
        ensures { self.new ≡ self.old }
    {
        self.first = *meta;
    }

    /// Lays down that no key is meant to stand in it.
    pub fn set_aside(&mut self)
        ensures { self.new ≡ self.old }
    {
        self.first = LAST;
    }

    /// The least of its numbers and of one that was found before.
    pub fn least_with(&self, was: Option<u64>) -> Option<u64>
        ensures { result ≡ least_in was self.now }
    {
        match self.bounds.number {
            None => was,
            Some(number) => lesser(was, number),
        }
    }

    /// The index of a metatile, looked for where it is meant to stand.
    pub fn guess(&self, meta: &MetaKey) -> Option<usize>
        ensures known { IfSome result (λ index. index < length self.now) }
        ensures at { IfSome result (λ index. (d : KeptSpot) → same_meta (slice_index_or self.now index d).meta meta.now ≡ true) }
    {
        let spots = self.spots.as_slice();
        let index = place_in(spots, meta);
        if index < spots.len() && same_meta(&spots[index].meta, meta) {
            return Some(index);
        }
        None
    }

    /// The index of a metatile; `None` exactly where it isn't there.
    pub fn index_of(&self, meta: &MetaKey) -> Option<usize>
        ensures known { IfSome result (λ index. index < length self.now) }
        ensures at { IfSome result (λ index. (d : KeptSpot) → same_meta (slice_index_or self.now index d).meta meta.now ≡ true) }
        ensures none { IfNone result (number_in self.now meta.now ≡ None) }
    {
        if !may_have(&self.bounds, meta) {
            return None;
        }
        index_in(self.spots.as_slice(), meta)
    }

    /// A key that the cover hits; `None` exactly where it hits none.
    pub fn hit(&self, aim: &mut Aim, f: &Factors, grid: &Grid, cover: &Cover) -> Option<MetaKey>
        requires grid { IsGrid grid.now }
        requires plan { IsPlanOn f.now grid.now }
        requires reach { IsWithinReach cover.now }
        requires aimed { IsAimed f.now grid.now cover.now aim.old }
        ensures aimed { IsAimed f.now grid.now cover.now aim.new }
        ensures hit { IfSome result (λ meta. IsTrue (hits_in f.now grid.now cover.now meta)) }
        ensures kept { IfSome result (λ meta. IsSome (number_in self.now meta)) }
        ensures none { IfNone result (NoneHit (hits_in f.now grid.now cover.now) self.now) }
    {
        if !may_hit(&self.bounds, aim, f, grid, cover) {
            return None;
        }
        hit_in(self.spots.as_slice(), aim, f, grid, cover)
    }

    /// Enters a key.
    pub fn enter(&mut self, spot: &KeptSpot)
        requires room { length self.old < chunk_room }
        ensures { IsEntered spot.now self.old self.new }
    {
        let index = place_in(self.spots.as_slice(), &spot.meta);
        insert_at(&mut self.spots, index, spot);
        self.bounds = widened(&self.bounds, spot);
    }

    /// Takes out the key at an index.
    pub fn leave(&mut self, index: usize)
        requires within { index < length self.old }
        ensures { self.new ≡ remove self.old index }
    {
        let gone = self.spots.remove(index);
        self.bounds = bounds_without(&self.bounds, self.spots.as_slice(), &gone);
    }

    /// Enters keys behind its own.
    pub fn append(&mut self, spots: &[KeptSpot])
        requires room { length self.old + length spots.now ≤ chunk_room }
        ensures { self.new ≡ self.old ++ spots.now }
    {
        let _ = self.spots.extend_from_slice(spots);
        self.bounds = bounds_of(self.spots.as_slice());
    }

    /// Keeps the first so many of its keys.
    pub fn truncate(&mut self, count: usize)
        ensures { self.new ≡ take count self.old }
    {
        self.spots.truncate(count);
        let left = self.spots.as_slice();
        self.bounds = bounds_of(left);
    }
}
