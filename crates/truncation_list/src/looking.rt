//! Looks along lists of slots: for the last cut that covers a tile, for one within a cover, for one around a cut, and for the place
//! of a number.
ghost use Rattle.std.specs.List.{All, Contains};
ghost use Rattle.std.specs.Prelude.{IsTrue, MatchOption, ℕ, false, length, nat_le, slice_index_or, ◌<◌, ◌≡◌, ◌≤◌};
ghost use Rattle.matrix_geometry.specs.Limits.{IsWithinLimits};
ghost use Rattle.truncation_list.specs.Contains.{contains};
ghost use Rattle.truncation_list.specs.Index.{list_of, listed, slots_in, standing};
ghost use Rattle.truncation_list.specs.Listed.{IsLastCovering, is_hit_since};
ghost use Rattle.truncation_list.specs.Purge.{IsByNumber, IsInOrder, RisesPast, is_outdone_among};
ghost use Rattle.truncation_list.specs.Slots.{AreTaken, cut_in, cuts_in, no_cut};

use crate::block::Block;
use crate::book::Cut;
use crate::containing::contains;
use crate::cover::Cover;
use crate::covering::{covers, hits};
use crate::index::Index;
use crate::lists::{exceed, first_list, last_list, list_in, list_of};
use crate::slots::cut_in;
use matrix_geometry::{Address, Matrix};
use slab::Slab;

/// The number of the last cut in these slots that covers the tile. They are read from their end, as far as the first cut that
/// covers.
pub fn last_covering(list: &[u32], slots: &Slab<Cut>, m: &Matrix, a: &Address) -> Option<u64>
    requires limits { IsWithinLimits m.now }
    requires taken { AreTaken slots.now list.now }
    requires order { IsInOrder (cuts_in slots.now list.now) }
    ensures { IsLastCovering (cuts_in slots.now list.now) m.now a.now result }
{
    let mut rest = list.len();
    'looking: while rest > 0 {
        rest -= 1;
        let cut = cut_in(slots, list[rest]);
        if covers(&cut.cover, m, a) {
            return Some(cut.number);
        }
    }
    None
}

/// Whether a cut in these slots of this number or a greater one hits the block. They are read from their end, as far as the first
/// cut of a lesser number.
pub fn hit_since(list: &[u32], slots: &Slab<Cut>, m: &Matrix, block: &Block, number: u64) -> bool
    requires limits { IsWithinLimits m.now }
    requires taken { AreTaken slots.now list.now }
    requires order { IsInOrder (cuts_in slots.now list.now) }
    ensures { result ≡ is_hit_since (cuts_in slots.now list.now) m.now block.now number }
{
    let mut rest = list.len();
    'looking: while rest > 0 {
        rest -= 1;
        let cut = cut_in(slots, list[rest]);
        if cut.number < number {
            return false;
        }
        if hits(&cut.cover, m, block) {
            return true;
        }
    }
    false
}

/// The first of these slots whose cut lies within the cover.
fn first_within(list: &[u32], slots: &Slab<Cut>, cover: &Cover) -> Option<u32>
    requires { AreTaken slots.now list.now }
    ensures { MatchOption result (All (λ slot. contains cover.now (cut_in slots.now slot).cover ≡ false) list.now) (λ slot. Contains list.now slot × IsTrue (contains cover.now (cut_in slots.now slot).cover)) }
{
    'looking: for p in 0..list.len() {
        let slot = list[p];
        if contains(cover, &cut_in(slots, slot).cover) {
            return Some(slot);
        }
    }
    None
}

/// A slot of the order whose cut lies within the cover, `None` where there is none; `lists` are those of the cover's layer and
/// grid. Where those of its zooms have more slots in all than half of the cuts, the order is looked along instead: it has each cut
/// once, and mostly one behind another.
pub fn some_within(
    order: &[u32],
    lists: &[Vec<u32>],
    slots: &Slab<Cut>,
    cover: &Cover,
) -> Option<u32>
    requires taken { AreTaken slots.now order.now }
    requires lists { (k : ℕ) → slots_in lists.now k ≡ standing cover.now.layer cover.now.grid k slots.now order.now }
    ensures { MatchOption result (All (λ slot. contains cover.now (cut_in slots.now slot).cover ≡ false) order.now) (λ slot. Contains order.now slot × IsTrue (contains cover.now (cut_in slots.now slot).cover)) }
{
    let first = first_list(cover);
    let last = last_list(cover);
    if exceed(lists, first, last, order.len() / 2) {
        return first_within(order, slots, cover);
    }
    'looking: for k in first..last + 1 {
        match first_within(list_in(lists, k), slots, cover) {
            Some(slot) => return Some(slot),
            None => {}
        }
    }
    None
}

/// The first place of these slots whose cut has this number or a greater one.
pub fn place_of(list: &[u32], slots: &Slab<Cut>, number: u64) -> usize
    requires taken { AreTaken slots.now list.now }
    requires order { IsByNumber (cuts_in slots.now list.now) }
    ensures within { result ≤ length list.now }
    ensures before { (i : ℕ) → i < result → (slice_index_or (cuts_in slots.now list.now) i no_cut).number < number }
    ensures from { (i : ℕ) → result ≤ i → i < length list.now → number ≤ (slice_index_or (cuts_in slots.now list.now) i no_cut).number }
{
    let mut low = 0;
    let mut high = list.len();
    'halving: while low < high {
        let middle = low + (high - low) / 2;
        if cut_in(slots, list[middle]).number < number {
            low = middle + 1;
        } else {
            high = middle;
        }
    }
    low
}

/// Whether a cut in these slots has a greater number than this one and contains it. They are read from their end, as far as the
/// first one that has no greater number, or no cut.
fn is_outdone_in(list: &[u32], slots: &Slab<Cut>, cut: &Cut) -> bool
    requires { RisesPast cut.now.number (cuts_in slots.now list.now) }
    ensures { result ≡ is_outdone_among (cuts_in slots.now list.now) cut.now }
{
    let mut rest = list.len();
    'looking: while rest > 0 {
        rest -= 1;
        match slots.get(list[rest] as usize) {
            None => return false,
            Some(other) => {
                if other.number <= cut.number {
                    return false;
                }
                if contains(&other.cover, &cut.cover) {
                    return true;
                }
            }
        }
    }
    false
}

/// Whether a cut in the slots of the order has a greater number than this one and contains it. It is looked for in the list of the
/// cut's first zoom, in which each one stands that contains it; in the order where the cut's last zoom comes before its first.
pub fn is_outdone(order: &[u32], index: &Index, slots: &Slab<Cut>, cut: &Cut) -> bool
    requires order { RisesPast cut.now.number (cuts_in slots.now order.now) }
    requires list { RisesPast cut.now.number (cuts_in slots.now (listed index.now.shelves.items cut.now.cover.layer cut.now.cover.grid (list_of cut.now.cover.z_start))) }
    requires same { IsTrue (nat_le cut.now.cover.z_start cut.now.cover.z_stop) → is_outdone_among (cuts_in slots.now (listed index.now.shelves.items cut.now.cover.layer cut.now.cover.grid (list_of cut.now.cover.z_start))) cut.now ≡ is_outdone_among (cuts_in slots.now order.now) cut.now }
    ensures { result ≡ is_outdone_among (cuts_in slots.now order.now) cut.now }
{
    let cover = &cut.cover;
    if cover.z_stop < cover.z_start {
        return is_outdone_in(order, slots, cut);
    }
    let lists = index.lists(cover.layer, cover.grid);
    is_outdone_in(list_in(lists, list_of(cover.z_start)), slots, cut)
}
