//! The purge of cuts by number: which of them go, how many stay, and the floor after it.
ghost use Rattle.std.specs.Prelude.{IsTrue, ◌+◌, ◌<◌, false, filter, fold, drop, length, slice_index_or, ◌≡◌, ◌≤◌, ◌↔◌};
ghost use Rattle.truncation_list.specs.Listed.{HasRoomFor, IsSettled};
ghost use Rattle.truncation_list.specs.Purge.{IsInOrder, goes, is_outdone, raised, remaining};
ghost use Rattle.truncation_list.specs.Slots.{no_cut, stays};
ghost use Rattle.truncation_list.specs.declared.cover.Cover.{Cover};

use crate::cover::Cover;
use crate::going::{is_old, stays};
use crate::indexed::IndexedCuts;

/// So many cuts are taken out one at a time before the others are taken out in one pass.
const FEW: u32 = 8;

/// Whether the cut at this place goes. A settled list is not searched for a later cut that contains it: there is none.
fn goes(
    cuts: &IndexedCuts,
    i: usize,
    cover: &Option<Cover>,
    least: Option<u64>,
    is_settled: bool,
) -> bool
    requires place { i < length cuts.now.cuts }
    requires settled { IsTrue is_settled → is_outdone (drop (i + 1) cuts.now.cuts) (slice_index_or cuts.now.cuts i no_cut) ≡ false }
    ensures { result ≡ goes cover.now least (drop (i + 1) cuts.now.cuts) (slice_index_or cuts.now.cuts i no_cut) }
{
    !stays(cover, least, cuts.cut(i)) || (!is_settled && cuts.is_outdone(i))
}

/// Whether `limit` or more cuts stay. It looks no further than where that is decided.
#[tactic(auto, using(crate::proofs::Remaining::no_more_remain))]
pub fn stay_at_least(
    cuts: &IndexedCuts,
    cover: &Option<Cover>,
    least: Option<u64>,
    is_settled: bool,
    limit: usize,
) -> bool
    requires { IsTrue is_settled → IsSettled cuts.now.cuts }
    ensures { IsTrue result ↔ (limit ≤ length (remaining cover.now least cuts.now.cuts)) }
{
    let mut left = cuts.len();
    if left < limit {
        return false;
    }
    'counting: for i in 0..cuts.len() {
        if goes(cuts, i, cover, least, is_settled) {
            left -= 1;
            if left < limit {
                return false;
            }
        }
    }
    true
}

/// The same of a settled list. It goes over the cuts only where one goes and more than `limit` are listed.
pub fn settled_stay_at_least(
    cuts: &IndexedCuts,
    cover: &Option<Cover>,
    least: Option<u64>,
    limit: usize,
) -> bool
    requires { IsSettled cuts.now.cuts }
    ensures { IsTrue result ↔ (limit ≤ length (remaining cover.now least cuts.now.cuts)) }
{
    match cuts.one_that_goes(cover, least) {
        None => limit <= cuts.len(),
        Some(_) => limit < cuts.len() && stay_at_least(cuts, cover, least, true, limit),
    }
}

/// The floor after a purge. The cuts stand by number, so those that meet the test on numbers come first.
pub fn floor_after(cuts: &IndexedCuts, floor: u64, least: Option<u64>) -> u64
    ensures floor { result ≡ fold (raised least) floor cuts.now.cuts }
    ensures order { IsInOrder cuts.now.cuts }
{
    let mut top = floor;
    'rising: for i in 0..cuts.len() {
        let cut = cuts.cut(i);
        if !is_old(least, cut) {
            return top;
        }
        top = top.max(cut.number);
    }
    top
}

/// Takes out the cuts that don't stay by themselves: a few one at a time, and where more are left the others in one pass.
fn let_go(cuts: &mut IndexedCuts, cover: &Option<Cover>, least: Option<u64>)
    ensures cuts { cuts.new.cuts ≡ filter (stays cover.now least) cuts.old.cuts }
    ensures ready { (cover : Cover) → HasRoomFor cuts.old.room cover → HasRoomFor cuts.new.room cover }
{
    'taking: for _count in 0..FEW {
        match cuts.one_that_goes(cover, least) {
            None => return,
            Some(i) => cuts.take_out(i),
        }
    }
    cuts.sweep(cover, least);
}

/// Takes out the cuts that go. Those that don't stay by themselves go first, so that only the others are looked through for later
/// ones: a cut that lies within a later one that goes by itself goes by itself too.
pub fn purge(cuts: &mut IndexedCuts, cover: &Option<Cover>, least: Option<u64>, is_settled: bool)
    requires { IsTrue is_settled → IsSettled cuts.old.cuts }
    ensures cuts { cuts.new.cuts ≡ remaining cover.now least cuts.old.cuts }
    ensures ready { (cover : Cover) → HasRoomFor cuts.old.room cover → HasRoomFor cuts.new.room cover }
{
    let _count = cuts.len();
    let_go(cuts, cover, least);
    if is_settled {
        return;
    }
    cuts.settle();
}
