//! The cuts by number with their index.
ghost use Rattle.std.specs.List.{All, remove};
ghost use Rattle.std.specs.Prelude.{IsTrue, MatchOption, OnOk, [], drop, false, filter, length, slice_index_or, true, ◌+◌, ◌++◌, ◌<◌, ◌^◌, ◌∷◌, ◌≡◌};
ghost use Rattle.matrix_geometry.specs.Limits.{IsWithinLimits};
ghost use Rattle.truncation_list.specs.Contains.{contains};
ghost use Rattle.truncation_list.specs.Covers.{IsWithinReach};
ghost use Rattle.truncation_list.specs.Listed.{HasRoomFor, IsLastCovering, is_hit_since, outermost};
ghost use Rattle.truncation_list.specs.Purge.{IsAbove, IsInOrder, is_outdone};
ghost use Rattle.truncation_list.specs.Slots.{no_cut, stays};
ghost use Rattle.truncation_list.specs.declared.cover.Cover.{Cover};

use crate::block::Block;
use crate::book::Cut;
use crate::cover::Cover;
use crate::going::is_old;
use crate::index::Index;
use crate::lists::{list_in, list_of};
use crate::looking::{hit_since, is_outdone, last_covering, place_of, some_within};
use crate::settling::free_outdone;
use crate::slots::{cut_in, free_going, keep_taken};
use matrix_geometry::{Address, Matrix};
use slab::Slab;
use std::alloc::{AllocError, Global};
use std::marker::Model;

/// The cuts by number, the least first, each in the lists of its layer, grid and zooms. Contracts see the cuts, and the room
/// for more.
#[derive(Drop)]
pub struct IndexedCuts {
    /// Each cut lies in a slot, and stays in it until it is taken out.
    slots: Slab<Cut>,
    /// The slots by the numbers of their cuts, the least first.
    order: Vec<u32>,
    index: Index,
}

impl Model for IndexedCuts {
    ghost use Rattle.std.specs.Prelude.{min, vec_capacity, vec_len, ◌-◌, ◌^◌, ◌≤◌};
    ghost use Rattle.truncation_list.specs.Index.{IsIndexed};
    ghost use Rattle.truncation_list.specs.Listed.{Indexed};
    ghost use Rattle.truncation_list.specs.Slots.{cuts_in, free_slots};

    ghost Value = { Indexed };

    ghost view = { λ c. record { cuts = cuts_in c.slots c.order.items; room = record { slots = free_slots c.slots; by_number = min (vec_capacity c.order) (2 ^ 32 - 1) - vec_len c.order; shelves = c.index.shelves.items } } };

    ghost invariant = { λ c. IsIndexed c.slots c.order.items c.index.shelves.items × (vec_len c.order ≤ 2 ^ 32 - 1) };
}

impl IndexedCuts {
    /// No cuts.
    pub fn new(alloc: Global) -> IndexedCuts
        ensures { result.cuts ≡ [] }
    {
        IndexedCuts {
            slots: Slab::new(alloc),
            order: Vec::new(alloc),
            index: Index::new(alloc),
        }
    }

    /// How many cuts there are.
    pub fn len(&self) -> usize
        ensures value { result ≡ length self.now.cuts }
        ensures order { IsInOrder self.now.cuts }
        ensures few { length self.now.cuts < 2 ^ 32 }
    {
        self.order.len()
    }

    /// The cut at a place in the order of numbers, counted from 0.
    pub fn cut(&self, i: usize) -> &Cut
        requires { i < length self.now.cuts }
        ensures { result.now ≡ slice_index_or self.now.cuts i no_cut }
    {
        cut_in(&self.slots, self.order[i])
    }

    /// Makes room for a cut of this cover, among the slots, in their order and in each list that it stands in.
    pub fn reserve(&mut self, alloc: Global, cover: &Cover) -> Result<(), AllocError>
        ensures cuts { self.new.cuts ≡ self.old.cuts }
        ensures ready { OnOk result (HasRoomFor self.new.room cover.now) }
    {
        if self.order.len() >= u32::MAX as usize {
            return Err(AllocError);
        }
        self.order.reserve(1)?;
        self.slots.reserve(1)?;
        // The number of a slot has 32 bits.
        if self.slots.capacity() > u32::MAX as usize {
            return Err(AllocError);
        }
        self.index.reserve(alloc, cover)
    }

    /// Adds a cut at the end.
    pub fn push(&mut self, number: u64, cover: &Cover)
        requires ready { HasRoomFor self.old.room cover.now }
        requires above { IsAbove number self.old.cuts }
        requires reachable { IsWithinReach cover.now }
        ensures { self.new.cuts ≡ self.old.cuts ++ record { number = number; cover = cover.now } ∷ [] }
    {
        let slot = self.slots.insert_reserved(Cut {
            number,
            cover: *cover,
        });
        self.index.stand(slot as u32, cover);
        self.order.push_reserved(slot as u32);
    }

    /// Takes out the cut at a place.
    pub fn take_out(&mut self, i: usize)
        requires { i < length self.old.cuts }
        ensures cuts { self.new.cuts ≡ remove self.old.cuts i }
        ensures ready { (cover : Cover) → HasRoomFor self.old.room cover → HasRoomFor self.new.room cover }
    {
        let slot = self.order.remove(i);
        let cut = self.slots.remove(slot as usize);
        self.index.leave(slot, &cut.cover);
    }

    /// Takes out the cuts that don't stay by themselves, in one pass over all of them and their lists.
    pub fn sweep(&mut self, cover: &Option<Cover>, least: Option<u64>)
        ensures cuts { self.new.cuts ≡ filter (stays cover.now least) self.old.cuts }
        ensures ready { (cover : Cover) → HasRoomFor self.old.room cover → HasRoomFor self.new.room cover }
    {
        free_going(&mut self.slots, cover, least);
        keep_taken(&mut self.order, &self.slots);
        self.index.keep(&self.slots);
    }

    /// Takes out the cuts that lie within a later one, in one pass over all of them and their lists.
    pub fn settle(&mut self)
        ensures cuts { self.new.cuts ≡ outermost self.old.cuts }
        ensures ready { (cover : Cover) → HasRoomFor self.old.room cover → HasRoomFor self.new.room cover }
    {
        free_outdone(&mut self.slots, &self.order, &self.index);
        keep_taken(&mut self.order, &self.slots);
        self.index.keep(&self.slots);
    }

    /// Whether the cover of a later cut contains that of the cut at a place.
    pub fn is_outdone(&self, i: usize) -> bool
        requires { i < length self.now.cuts }
        ensures { result ≡ is_outdone (drop (i + 1) self.now.cuts) (slice_index_or self.now.cuts i no_cut) }
    {
        let cut = self.cut(i);
        is_outdone(&self.order, &self.index, &self.slots, cut)
    }

    /// The number of the last cut that covers the tile.
    pub fn last(&self, m: &Matrix, a: &Address) -> Option<u64>
        requires { IsWithinLimits m.now }
        ensures { IsLastCovering self.now.cuts m.now a.now result }
    {
        let lists = self.index.lists(a.theme.layer, a.grid);
        last_covering(list_in(lists, list_of(a.z)), &self.slots, m, a)
    }

    /// Whether a cut of this number or a greater one hits the block.
    pub fn newest_hit(&self, m: &Matrix, block: &Block, number: u64) -> bool
        requires { IsWithinLimits m.now }
        ensures { result ≡ is_hit_since self.now.cuts m.now block.now number }
    {
        let lists = self.index.lists(block.theme.layer, block.grid);
        hit_since(
            list_in(lists, list_of(block.z)),
            &self.slots,
            m,
            block,
            number,
        )
    }

    /// The place of a cut that doesn't stay by itself, `None` where each does. It is looked for at the first place, which has the
    /// least number, and in the lists of the zooms of the cover that comes.
    pub fn one_that_goes(&self, cover: &Option<Cover>, least: Option<u64>) -> Option<usize>
        ensures { MatchOption result (All (λ cut. stays cover.now least cut ≡ true) self.now.cuts) (λ i. (i < length self.now.cuts) × (stays cover.now least (slice_index_or self.now.cuts i no_cut) ≡ false)) }
    {
        if self.len() == 0 {
            return None;
        }
        if is_old(least, self.cut(0)) {
            return Some(0);
        }
        match cover {
            None => None,
            Some(cover) => self.one_within(cover),
        }
    }

    /// The place of a cut within the cover, `None` where there is none.
    fn one_within(&self, cover: &Cover) -> Option<usize>
        ensures { MatchOption result (All (λ cut. contains cover.now cut.cover ≡ false) self.now.cuts) (λ i. (i < length self.now.cuts) × IsTrue (contains cover.now (slice_index_or self.now.cuts i no_cut).cover)) }
    {
        let lists = self.index.lists(cover.layer, cover.grid);
        match some_within(&self.order, lists, &self.slots, cover) {
            None => None,
            Some(slot) => {
                let number = cut_in(&self.slots, slot).number;
                Some(place_of(&self.order, &self.slots, number))
            }
        }
    }
}
