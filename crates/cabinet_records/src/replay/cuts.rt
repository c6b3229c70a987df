//! The cuts of a replay, with lists of them that are aimed at the metatiles of zooms.
ghost use Rattle.std.specs.Prelude.{IfOk, IfSome, OnOk, ◌≡◌};
ghost use Rattle.cabinet_records.specs.Aiming.{IsOfZoom, IsZoomOn};
ghost use Rattle.metatile_locks.specs.Running.{block};
ghost use Rattle.truncation_list.specs.Covers.{IsWithinReach};
ghost use Rattle.truncation_list.specs.Listed.{IsReady, is_hit_since};
ghost use Rattle.truncation_list.specs.Purge.{IsAbove, empty_book, with_cut};

use crate::replay::aimed::{Aims, Zoom};
use crate::replay::aiming::{aim_at, hit_since};
use catalog::Grid;
use metatile_plan::MetaKey;
use std::alloc::{AllocError, Global};
use std::marker::Model;
use truncation_list::{Cover, CutList};

/// How many cuts may be aimed in all lists together: what they take, some 70 bytes each, is given back at the end of the replay.
const MOST_AIMED: u32 = 1_000_000;

/// The cuts of a replay. Contracts see the list of them, and nothing of what is aimed: that says of each metatile what the list says.
#[derive(Drop)]
pub struct ReplayCuts {
    list: CutList,
    /// What was aimed since the last cut came in.
    aims: Vec<Aims>,
    /// The place of the list that was asked for last.
    at: usize,
    /// How many cuts more may be aimed.
    room: u32,
}

impl Model for ReplayCuts {
    ghost use Rattle.std.specs.List.{All};
    ghost use Rattle.truncation_list.specs.Listed.{Listed};
    ghost use Rattle.cabinet_records.specs.Aiming.{AreAimed};

    ghost Value = { Listed };

    ghost view = { λ c. c.list };

    ghost invariant = { λ c. All (AreAimed c.list.book.cuts) c.aims.items };
}

impl ReplayCuts {
    /// No cuts. `AllocError` where memory runs out.
    pub fn new(alloc: Global) -> Result<ReplayCuts, AllocError>
        ensures { IfOk result (λ cuts. cuts.book ≡ empty_book) }
    {
        match CutList::new(alloc) {
            Err(fault) => Err(fault),
            Ok(list) => Ok(ReplayCuts {
                list,
                aims: Vec::new(alloc),
                at: 0,
                room: MOST_AIMED,
            }),
        }
    }

    /// The list of the cuts.
    pub fn list(&self) -> &CutList
        ensures { result.now ≡ self.now }
    {
        &self.list
    }

    /// The list alone.
    pub fn into_list(self) -> CutList
        ensures { result ≡ self }
    {
        self.list
    }

    /// Makes the list ready for a cut of this cover. `AllocError` where memory runs out.
    pub fn reserve(&mut self, alloc: Global, cover: &Cover) -> Result<(), AllocError>
        ensures book { self.new.book ≡ self.old.book }
        ensures ready { OnOk result (IsReady self.new cover.now) }
    {
        self.list.reserve(alloc, cover)
    }

    /// Adds a cut without a purge. What was aimed is forgotten, since the cut isn't in it.
    pub fn enter(&mut self, number: u64, cover: &Cover)
        requires ready { IsReady self.old cover.now }
        requires above { IsAbove number self.old.book.cuts }
        requires reachable { IsWithinReach cover.now }
        ensures { self.new.book ≡ with_cut number cover.now self.old.book }
    {
        self.aims.clear();
        self.room = MOST_AIMED;
        self.list.enter(number, cover);
    }

    /// Aims the cuts at a zoom, from the last one down to those of lesser numbers than this, so that `hit_since` can tell which metatiles they hit. It does
    /// less where there is no memory or too much is aimed.
    pub fn aim(&mut self, alloc: Global, zoom: &Zoom, grid: &Grid, number: u64)
        requires { IsZoomOn grid.now zoom.now }
        ensures { self.new ≡ self.old }
    {
        self.at = aim_at(
            &mut self.aims,
            alloc,
            &self.list,
            zoom,
            grid,
            number,
            &mut self.room,
        );
    }

    /// Whether a cut of this number or a greater one hits a metatile of a zoom; `None` where the cuts weren't aimed at that zoom last, or not so far down.
    pub fn hit_since(&self, zoom: &Zoom, number: u64, meta: &MetaKey) -> Option<bool>
        requires { IsOfZoom zoom.now meta.now }
        ensures { IfSome result (λ is. is ≡ is_hit_since self.now.book.cuts zoom.now.matrix (block zoom.now.factors zoom.now.matrix meta.now) number) }
    {
        match self.aims.get(self.at) {
            None => None,
            Some(aims) => hit_since(aims, &self.list, zoom, number, meta),
        }
    }
}
