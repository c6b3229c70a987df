//! The walk along the chunks.
ghost use Rattle.std.specs.Prelude.{IfNone, IfSome, IsSome, IsTrue, false, ◌≡◌, ◌≤◌};
ghost use Rattle.catalog.specs.Valid.{IsGrid};
ghost use Rattle.kept_areas.specs.Areas.{IsClear, all_spots, least_in, number_in};
ghost use Rattle.metatile_locks.specs.Running.{IsPlanOn, hits_in};
ghost use Rattle.metatile_plan.specs.declared.metatile.MetaKey.{MetaKey};
ghost use Rattle.truncation_list.specs.Covers.{IsWithinReach};

use crate::area::Area;
use crate::spot::Hit;
use catalog::Grid;
use metatile_locks::Aim;
use metatile_plan::Factors;
use truncation_list::Cover;

/// The least number of all chunks and of one that was found before.
pub fn least_among(chunks: &[Area], was: Option<u64>) -> Option<u64>
    ensures { result ≡ least_in was (all_spots chunks.now) }
{
    let mut least = was;
    'comparing: for at in 0..chunks.len() {
        least = chunks[at].least_with(least);
    }
    least
}

/// A key that the cover hits, the first in the chunks from one on; `None` exactly where none of these is hit.
pub fn hit_among(
    chunks: &[Area],
    f: &Factors,
    grid: &Grid,
    cover: &Cover,
    from: usize,
) -> Option<Hit>
    requires grid { IsGrid grid.now }
    requires plan { IsPlanOn f.now grid.now }
    requires reach { IsWithinReach cover.now }
    ensures hit { IfSome result (λ hit. IsTrue (hits_in f.now grid.now cover.now hit.meta)) }
    ensures kept { IfSome result (λ hit. IsSome (number_in (all_spots chunks.now) hit.meta)) }
    ensures behind { IfSome result (λ hit. from ≤ hit.at) }
    ensures clear { IfSome result (λ hit. IsClear (hits_in f.now grid.now cover.now) from chunks.now → IsClear (hits_in f.now grid.now cover.now) hit.at chunks.now) }
    ensures none { IfNone result (IsClear (hits_in f.now grid.now cover.now) from chunks.now → (m : MetaKey) → IsSome (number_in (all_spots chunks.now) m) → hits_in f.now grid.now cover.now m ≡ false) }
{
    let mut aim = Aim::at(f, grid, cover, cover.z_start);
    let mut at = from;
    'walking: while at < chunks.len() {
        match chunks[at].hit(&mut aim, f, grid, cover) {
            Some(meta) => return Some(Hit { at, meta }),
            None => at += 1,
        }
    }
    None
}
