//! The work on plain lists of keys.
ghost use Rattle.std.specs.Prelude.{IfNone, IfSome, IsSome, IsTrue, None, length, slice_index_or, true, ◌<◌, ◌≡◌};
ghost use Rattle.catalog.specs.Valid.{IsGrid};
ghost use Rattle.kept_areas.specs.Areas.{NoneHit, least_in, lesser, number_in};
ghost use Rattle.metatile_locks.specs.Reach.{IsAimed};
ghost use Rattle.metatile_locks.specs.Running.{IsPlanOn, hits_in};
ghost use Rattle.metatile_plan.specs.Keys.{same_meta};
ghost use Rattle.truncation_list.specs.Covers.{IsWithinReach};

use crate::spot::KeptSpot;
use catalog::Grid;
use metatile_locks::Aim;
use metatile_plan::{Factors, MetaKey, same_meta};
use truncation_list::Cover;

/// The lesser of a number and of one that was found before.
pub fn lesser(was: Option<u64>, number: u64) -> Option<u64>
    ensures { result ≡ lesser was number }
{
    match was {
        None => Some(number),
        Some(least) => Some(if number < least { number } else { least }),
    }
}

/// The least of the numbers and of one that was found before.
pub fn least_of(spots: &[KeptSpot], was: Option<u64>) -> Option<u64>
    ensures { result ≡ least_in was spots.now }
{
    let mut least = was;
    'comparing: for at in 0..spots.len() {
        least = lesser(least, spots[at].number);
    }
    least
}

/// A key that the cover hits, the last of them; `None` exactly where it hits none.
pub fn hit_in(
    spots: &[KeptSpot],
    aim: &mut Aim,
    f: &Factors,
    grid: &Grid,
    cover: &Cover,
) -> Option<MetaKey>
    requires grid { IsGrid grid.now }
    requires plan { IsPlanOn f.now grid.now }
    requires reach { IsWithinReach cover.now }
    requires aimed { IsAimed f.now grid.now cover.now aim.old }
    ensures aimed { IsAimed f.now grid.now cover.now aim.new }
    ensures hit { IfSome result (λ meta. IsTrue (hits_in f.now grid.now cover.now meta)) }
    ensures kept { IfSome result (λ meta. IsSome (number_in spots.now meta)) }
    ensures none { IfNone result (NoneHit (hits_in f.now grid.now cover.now) spots.now) }
{
    // The last one leaves its chunk at the least cost.
    let mut at = spots.len();
    'looking: while at > 0 {
        at -= 1;
        let spot = spots[at];
        if aim.hits(f, grid, cover, &spot.meta) {
            return Some(spot.meta);
        }
    }
    None
}

/// The index of a metatile; `None` exactly where it isn't there.
pub fn index_in(spots: &[KeptSpot], meta: &MetaKey) -> Option<usize>
    ensures known { IfSome result (λ index. index < length spots.now) }
    ensures at { IfSome result (λ index. (d : KeptSpot) → same_meta (slice_index_or spots.now index d).meta meta.now ≡ true) }
    ensures none { IfNone result (number_in spots.now meta.now ≡ None) }
{
    let mut index = spots.len();
    'looking: while index > 0 {
        index -= 1;
        if same_meta(&spots[index].meta, meta) {
            return Some(index);
        }
    }
    None
}
