//! The bounds of a chunk: what they are of some keys, and whether a key within them can be hit.
ghost use Rattle.std.specs.Option.{option_map_or};
ghost use Rattle.std.specs.Prelude.{IsTrue, List, false, ◌==◌, ◌≡◌};
ghost use Rattle.catalog.specs.Valid.{IsGrid};
ghost use Rattle.kept_areas.specs.Bounds.{AreBounded, IsWithin, is_near, meets_sides, widen, widened};
ghost use Rattle.kept_areas.specs.Kept.{IsEntered};
ghost use Rattle.kept_areas.specs.declared.spot.KeptSpot.{KeptSpot};
ghost use Rattle.metatile_locks.specs.Reach.{IsAimed};
ghost use Rattle.metatile_locks.specs.Running.{IsPlanOn, hits_in};
ghost use Rattle.metatile_plan.specs.declared.metatile.MetaKey.{MetaKey};
ghost use Rattle.truncation_list.specs.Covers.{IsWithinReach};

use crate::side::{Side, Sides};
use crate::spot::KeptSpot;
use crate::table::{least_of, lesser};
use catalog::Grid;
use matrix_geometry::Range;
use metatile_locks::{Aim, laws_of_reach};
use metatile_plan::{Factors, MetaKey};
use truncation_list::Cover;

/// Between no two numbers.
const VOID: Side = Side {
    least: u32::MAX,
    most: 0,
};

/// The bounds of no key.
pub const UNBOUNDED: Sides = Sides {
    layer: VOID,
    grid: VOID,
    z: VOID,
    row: VOID,
    col: VOID,
    number: None,
};

/// A side that has a number too.
fn widen(side: Side, number: u32) -> Side
    ensures { result ≡ widen side number }
{
    Side {
        least: side.least.min(number),
        most: side.most.max(number),
    }
}

/// Bounds with one key more within them.
pub fn widened(bounds: &Sides, spot: &KeptSpot) -> Sides
    ensures { result ≡ widened bounds.now spot.now }
{
    Sides {
        layer: widen(bounds.layer, spot.meta.theme.layer),
        grid: widen(bounds.grid, spot.meta.grid),
        z: widen(bounds.z, spot.meta.z),
        row: widen(bounds.row, spot.meta.row),
        col: widen(bounds.col, spot.meta.col),
        number: lesser(bounds.number, spot.number),
    }
}

/// The bounds of some keys.
pub fn bounds_of(spots: &[KeptSpot]) -> Sides
    ensures { AreBounded spots.now result }
{
    let mut bounds = UNBOUNDED;
    'widening: for at in 0..spots.len() {
        bounds = widened(&bounds, &spots[at]);
    }
    bounds
}

/// Whether a number is the least one.
fn is_least(bounds: &Sides, number: u64) -> bool
    ensures { result ≡ option_map_or (λ least. least == number) bounds.now.number false }
{
    match bounds.number {
        None => false,
        Some(least) => least == number,
    }
}

/// The bounds of the keys that are left where one is gone: they stay as wide as they were, and their least number is found anew
/// where it went with that key.
pub fn bounds_without(bounds: &Sides, spots: &[KeptSpot], gone: &KeptSpot) -> Sides
    ensures { (old : List KeptSpot) → IsEntered gone.now spots.now old → AreBounded old bounds.now → AreBounded spots.now result }
{
    if is_least(bounds, gone.number) {
        return Sides {
            number: least_of(spots, None),
            ..*bounds
        };
    }
    *bounds
}

/// Whether some key within the bounds may be of the cover's layer and grid, and in its zoom range.
fn is_near(bounds: &Sides, cover: &Cover) -> bool
    ensures { result ≡ is_near bounds.now cover.now }
{
    bounds.layer.least <= cover.layer
        && cover.layer <= bounds.layer.most
        && bounds.grid.least <= cover.grid
        && cover.grid <= bounds.grid.most
        && bounds.z.least <= cover.z_stop
        && cover.z_start <= bounds.z.most
}

/// Whether some place in these rows and columns may be reached.
fn meets(reach: Option<Range>, rows: Side, cols: Side) -> bool
    ensures { result ≡ meets_sides reach rows cols }
{
    match reach {
        None => false,
        Some(r) => {
            r.row_min <= rows.most
                && rows.least <= r.row_max
                && r.col_min <= cols.most
                && cols.least <= r.col_max
        }
    }
}

/// Whether the cover may be for some tile of a metatile that is within the bounds. The box is asked for where these are of one zoom.
pub fn may_hit(bounds: &Sides, aim: &mut Aim, f: &Factors, grid: &Grid, cover: &Cover) -> bool
    requires grid { IsGrid grid.now }
    requires plan { IsPlanOn f.now grid.now }
    requires reach { IsWithinReach cover.now }
    requires aimed { IsAimed f.now grid.now cover.now aim.old }
    ensures aimed { IsAimed f.now grid.now cover.now aim.new }
    ensures may { (k : MetaKey) → IsWithin bounds.now k → IsTrue (hits_in f.now grid.now cover.now k) → IsTrue result }
{
    laws_of_reach();
    if !is_near(bounds, cover) {
        return false;
    }
    if bounds.z.least != bounds.z.most {
        return true;
    }
    aim.turn(f, grid, cover, bounds.z.least);
    meets(aim.reach, bounds.row, bounds.col)
}

/// Whether a key may be within the bounds.
pub fn may_have(bounds: &Sides, meta: &MetaKey) -> bool
    ensures { IsWithin bounds.now meta.now → IsTrue result }
{
    bounds.row.least <= meta.row
        && meta.row <= bounds.row.most
        && bounds.col.least <= meta.col
        && meta.col <= bounds.col.most
        && bounds.z.least <= meta.z
        && meta.z <= bounds.z.most
}
