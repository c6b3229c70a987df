//! Which metatiles a cover hits, told by the rows and columns of metatiles that it reaches: these are reckoned once for a zoom,
//! and not for each metatile.
ghost use Rattle.std.specs.Prelude.{IfSome, ◌≡◌, ◌≤◌};
ghost use Rattle.catalog.specs.Valid.{IsGrid};
ghost use Rattle.matrix_geometry.specs.Limits.{IsReachable, IsWithinLimits};
ghost use Rattle.matrix_geometry.specs.Ranges.{is_in_some_range};
ghost use Rattle.metatile_locks.specs.Reach.{IsAimed, gathered, is_reached, reach, reach_at, tiles_within};
ghost use Rattle.metatile_locks.specs.Running.{IsPlanOn, hits_in};
ghost use Rattle.metatile_plan.specs.Plan.{IsPlan};
ghost use Rattle.truncation_list.specs.Covers.{IsWithinReach};

use crate::aim::Aim;
use crate::laws::laws_of_reach;
use catalog::Grid;
use matrix_geometry::{Box9, Matrix, Range};
use metatile_plan::{Factors, MetaKey};
use truncation_list::Cover;

/// The tiles of the matrix that lie in the box; all where there is none.
fn tiles_within(bounds: Option<Box9>, m: &Matrix) -> Option<Range>
    requires limits { IsWithinLimits m.now }
    requires reachable { IfSome bounds IsReachable }
    ensures { result ≡ tiles_within bounds m.now }
{
    match bounds {
        None => Some(Range {
            row_min: 0,
            row_max: m.rows - 1,
            col_min: 0,
            col_max: m.cols - 1,
        }),
        Some(b) => m.tiles_of_box(&b),
    }
}

/// The metatiles that hold these tiles.
fn metatile_range(f: &Factors, tiles: Range) -> Range
    requires x { 1 ≤ f.now.x }
    requires y { 1 ≤ f.now.y }
    ensures { result ≡ gathered f.now tiles }
{
    Range {
        row_min: tiles.row_min / f.y,
        row_max: tiles.row_max / f.y,
        col_min: tiles.col_min / f.x,
        col_max: tiles.col_max / f.x,
    }
}

/// The metatiles that the box of a cover reaches on a matrix.
fn reach_on(f: &Factors, m: &Matrix, cover: &Cover) -> Option<Range>
    requires limits { IsWithinLimits m.now }
    requires plan { IsPlan f.now m.now }
    requires reach { IsWithinReach cover.now }
    ensures { result ≡ reach f.now m.now cover.now }
{
    match tiles_within(cover.bounds, m) {
        None => None,
        Some(tiles) => Some(metatile_range(f, tiles)),
    }
}

/// The metatiles that the box of a cover reaches on the matrix of this number, `None` where the grid lacks it. The metatiles of
/// the cover's layer are gathered by these factors, and its grid is this one.
pub fn reach(f: &Factors, grid: &Grid, z: u32, cover: &Cover) -> Option<Range>
    requires grid { IsGrid grid.now }
    requires plan { IsPlanOn f.now grid.now }
    requires reach { IsWithinReach cover.now }
    ensures { result ≡ reach_at f.now grid.now cover.now z }
{
    match grid.matrices.get(z as usize) {
        None => None,
        Some(m) => reach_on(f, m, cover),
    }
}

fn is_within(reach: Option<Range>, row: u32, col: u32) -> bool
    ensures { result ≡ is_in_some_range reach row col }
{
    match reach {
        None => false,
        Some(r) => r.row_min <= row && row <= r.row_max && r.col_min <= col && col <= r.col_max,
    }
}

/// Whether a metatile is hit, where this is what the cover reaches at its zoom.
pub fn is_reached(cover: &Cover, reach: Option<Range>, meta: &MetaKey) -> bool
    ensures { result ≡ is_reached cover.now reach meta.now }
{
    cover.layer == meta.theme.layer
        && cover.grid == meta.grid
        && cover.z_start <= meta.z
        && meta.z <= cover.z_stop
        && is_within(reach, meta.row, meta.col)
        && cover.filter.admits(&meta.theme)
}

impl Aim {
    /// What the cover reaches at a zoom.
    pub fn at(f: &Factors, grid: &Grid, cover: &Cover, z: u32) -> Aim
        requires grid { IsGrid grid.now }
        requires plan { IsPlanOn f.now grid.now }
        requires reach { IsWithinReach cover.now }
        ensures aimed { IsAimed f.now grid.now cover.now result }
        ensures zoom { result.z ≡ z }
    {
        Aim {
            z,
            reach: reach(f, grid, z, cover),
        }
    }

    /// Aims at a zoom; nothing is reckoned where that is the zoom already.
    pub fn turn(&mut self, f: &Factors, grid: &Grid, cover: &Cover, z: u32)
        requires grid { IsGrid grid.now }
        requires plan { IsPlanOn f.now grid.now }
        requires reach { IsWithinReach cover.now }
        requires aimed { IsAimed f.now grid.now cover.now self.old }
        ensures aimed { IsAimed f.now grid.now cover.now self.new }
        ensures zoom { self.new.z ≡ z }
    {
        if self.z != z {
            *self = Aim::at(f, grid, cover, z);
        }
    }

    /// Whether the cover is for some tile of a metatile.
    pub fn hits(&mut self, f: &Factors, grid: &Grid, cover: &Cover, meta: &MetaKey) -> bool
        requires grid { IsGrid grid.now }
        requires plan { IsPlanOn f.now grid.now }
        requires reach { IsWithinReach cover.now }
        requires aimed { IsAimed f.now grid.now cover.now self.old }
        ensures aimed { IsAimed f.now grid.now cover.now self.new }
        ensures hits { result ≡ hits_in f.now grid.now cover.now meta.now }
    {
        laws_of_reach();
        self.turn(f, grid, cover, meta.z);
        is_reached(cover, self.reach, meta)
    }
}
