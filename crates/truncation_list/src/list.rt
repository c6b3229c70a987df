//! The list of the cuts in force, with its floor: cuts are added, purged and looked up.
ghost use Rattle.std.specs.Prelude.{IfOk, IsTrue, OnOk, Some, length, max, slice_get, ◌<◌, ◌≡◌, ◌≤◌, ◌↔◌, None};
ghost use Rattle.matrix_geometry.specs.Limits.{IsWithinLimits};
ghost use Rattle.truncation_list.specs.Books.{AnswersForBook, last_seen};
ghost use Rattle.truncation_list.specs.Covers.{IsWithinReach};
ghost use Rattle.truncation_list.specs.Listed.{IsLastCovering, IsReady, is_hit_since};
ghost use Rattle.truncation_list.specs.Purge.{IsAbove, IsInOrder, added, empty_book, purged, with_cut, with_floor};
ghost use Rattle.truncation_list.specs.declared.cover.Cover.{Cover};

use crate::block::Block;
use crate::cover::Cover;
use crate::indexed::IndexedCuts;
use crate::purge::{floor_after, purge, settled_stay_at_least, stay_at_least};
use matrix_geometry::{Address, Matrix};
use std::alloc::{AllocError, Global};
use std::marker::Model;

/// The cuts in force by number, and a floor. Contracts see its book, and the room for more cuts; it holds at most 2^32 - 1 of
/// them.
///
/// In the calls below `least` is the least number that is kept or running, `None` where there is none. `last` reads the cuts
/// of the tile's layer, grid and zoom alone. `full` and `add` read those of the cover's zooms. `add` goes over all cuts only
/// where many go, and `full` only where some go and more than `limit` are listed. The first purge after an `enter` compares each
/// cut that stays by itself, and `full` before it each cut, with the later ones of its layer, grid and first zoom.
#[derive(Drop)]
pub struct CutList {
    cuts: IndexedCuts,
    floor: u64,
    /// Whether it is known that no cut lies within a later one. `enter` alone forgets it.
    is_settled: bool,
}

impl Model for CutList {
    ghost use Rattle.std.specs.Prelude.{IsTrue};
    ghost use Rattle.truncation_list.specs.Listed.{IsSettled, Listed};

    ghost Value = { Listed };

    ghost view = { λ l. record { book = record { cuts = l.cuts.cuts; floor = l.floor }; room = l.cuts.room } };

    ghost invariant = { λ l. IsTrue l.is_settled → IsSettled l.cuts.cuts };
}

impl CutList {
    /// A list without a cut, whose floor is 0.
    pub fn new(alloc: Global) -> Result<CutList, AllocError>
        ensures { IfOk result (λ list. list.book ≡ empty_book) }
    {
        Ok(CutList {
            cuts: IndexedCuts::new(alloc),
            floor: 0,
            is_settled: true,
        })
    }

    /// Makes the list ready for a cut of this cover. It stays ready for it until the next `reserve`, `add` or `enter`.
    pub fn reserve(&mut self, alloc: Global, cover: &Cover) -> Result<(), AllocError>
        ensures book { self.new.book ≡ self.old.book }
        ensures ready { OnOk result (IsReady self.new cover.now) }
    {
        self.cuts.reserve(alloc, cover)
    }

    /// Whether `limit` or more cuts stay after the purge for this cover.
    pub fn full(&self, cover: &Cover, least: Option<u64>, limit: u32) -> bool
        ensures { IsTrue result ↔ (limit ≤ length (purged (Some cover.now) least self.now.book).cuts) }
    {
        let cover = Some(*cover);
        if self.cuts.len() < limit as usize {
            return false;
        }
        if self.is_settled {
            return settled_stay_at_least(&self.cuts, &cover, least, limit as usize);
        }
        stay_at_least(&self.cuts, &cover, least, false, limit as usize)
    }

    /// Takes out the cuts that go, and raises the floor.
    fn let_go(&mut self, cover: &Option<Cover>, least: Option<u64>)
        ensures book { self.new.book ≡ purged cover.now least self.old.book }
        ensures order { IsInOrder self.old.book.cuts }
        ensures ready { (cover : Cover) → IsReady self.old cover → IsReady self.new cover }
    {
        self.floor = floor_after(&self.cuts, self.floor, least);
        purge(&mut self.cuts, cover, least, self.is_settled);
        self.is_settled = true;
    }

    /// Purges for this cover, and adds its cut.
    pub fn add(&mut self, number: u64, cover: &Cover, least: Option<u64>)
        requires ready { IsReady self.old cover.now }
        requires above { IsAbove number self.old.book.cuts }
        requires reachable { IsWithinReach cover.now }
        ensures book { self.new.book ≡ added number cover.now least self.old.book }
        ensures answers { AnswersForBook self.new.book self.old.book }
    {
        self.let_go(&Some(*cover), least);
        self.cuts.push(number, cover);
        self.is_settled = true;
    }

    /// Adds a cut without a purge.
    pub fn enter(&mut self, number: u64, cover: &Cover)
        requires ready { IsReady self.old cover.now }
        requires above { IsAbove number self.old.book.cuts }
        requires reachable { IsWithinReach cover.now }
        ensures book { self.new.book ≡ with_cut number cover.now self.old.book }
        ensures answers { AnswersForBook self.new.book self.old.book }
    {
        self.is_settled = false;
        self.cuts.push(number, cover);
    }

    /// Purges, and adds no cut.
    pub fn purge(&mut self, least: Option<u64>)
        ensures book { self.new.book ≡ purged None least self.old.book }
        ensures answers { AnswersForBook self.new.book self.old.book }
        ensures ready { (cover : Cover) → IsReady self.old cover → IsReady self.new cover }
    {
        self.let_go(&None, least);
    }

    /// Raises the floor to this number, where it is below it.
    pub fn raise(&mut self, floor: u64)
        ensures book { self.new.book ≡ with_floor floor self.old.book }
        ensures answers { AnswersForBook self.new.book self.old.book }
        ensures ready { (cover : Cover) → IsReady self.old cover → IsReady self.new cover }
    {
        self.floor = self.floor.max(floor);
    }

    /// A cut by its place in the order of numbers, counted from 0: its number and its cover.
    pub fn cut_at(&self, i: u32) -> (u64, Cover)
        requires { i < length self.now.book.cuts }
        ensures { slice_get self.now.book.cuts i ≡ Some (record { number = result.0; cover = result.1 }) }
    {
        let cut = self.cuts.cut(i as usize);
        (cut.number, cut.cover)
    }

    /// The greatest number of a listed cut that covers a tile, `None` where none does; `m` is the tile's matrix.
    pub fn last(&self, m: &Matrix, a: &Address) -> Option<u64>
        requires { IsWithinLimits m.now }
        ensures { IsLastCovering self.now.book.cuts m.now a.now result }
    {
        self.cuts.last(m, a)
    }

    /// Whether a listed cut of this number or a greater one hits the block; `m` is the block's matrix. It reads the cuts of the
    /// block's layer, grid and zoom alone, from the last one down to the first of a lesser number.
    pub fn newest_hit(&self, m: &Matrix, block: &Block, number: u64) -> bool
        requires { IsWithinLimits m.now }
        ensures { result ≡ is_hit_since self.now.book.cuts m.now block.now number }
    {
        self.cuts.newest_hit(m, block, number)
    }

    /// The greatest cut that the list has seen: the greater of its floor and its greatest listed number.
    pub fn seen(&self) -> u64
        ensures { result ≡ last_seen self.now.book }
    {
        let count = self.cuts.len();
        if count == 0 {
            return self.floor;
        }
        self.floor.max(self.cuts.cut(count - 1).number)
    }

    /// The number up to which each cut is answered for without being listed.
    pub fn floor(&self) -> u64
        ensures { result ≡ self.now.book.floor }
    {
        self.floor
    }

    /// How many cuts are listed. They stand by number, and their boxes are within reach.
    pub fn count(&self) -> u32
        ensures count { result ≡ length self.now.book.cuts }
        ensures order { IsInOrder self.now.book.cuts }
    {
        self.cuts.len() as u32
    }
}
