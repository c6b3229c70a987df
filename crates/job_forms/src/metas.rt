//! The metatiles of a cover on one matrix: in which rows and columns they stand, how many they are, and each by its place.
ghost use Rattle.std.specs.Prelude.{ℕ, ◌≡◌, ◌+◌, ◌-◌, ◌*◌, ◌<◌, ◌≤◌, ◌^◌, IfSome, IsSome, Some, length, option_map, slice_get};
ghost use Rattle.catalog.specs.LookUp.{matrix_in};
ghost use Rattle.catalog.specs.Valid.{IsValid};
ghost use Rattle.job_forms.specs.Places.{gathered, metas_at, metas_in, metas_in_some, tiles_within};
ghost use Rattle.job_forms.specs.Steps.{IsMetaRange};
ghost use Rattle.matrix_geometry.specs.Limits.{IsReachable, IsWithinLimits};
ghost use Rattle.matrix_geometry.specs.Ranges.{IsRangeOf};
ghost use Rattle.matrix_geometry.specs.declared.theme.Theme.{Theme};
ghost use Rattle.served_covers.specs.OfCatalogue.{IsCoverOf};

use catalog::Catalogue;
use matrix_geometry::{Box9, Matrix, Range, Theme};
use metatile_plan::{Factors, MetaKey};
use raster_field::factors_of;
use truncation_list::Cover;

/// The tiles of a matrix that lie in the bounds: all where there is no box, and `None` exactly where none does.
fn tiles_within(bounds: Option<Box9>, matrix: &Matrix) -> Option<Range>
    requires limits { IsWithinLimits matrix.now }
    requires reach { IfSome bounds IsReachable }
    ensures range { result ≡ tiles_within bounds matrix.now }
    ensures inside { IfSome result (λ r. IsRangeOf matrix.now r) }
{
    match bounds {
        Some(bounds) => matrix.tiles_of_box(&bounds),
        None => Some(Range {
            row_min: 0,
            row_max: matrix.rows - 1,
            col_min: 0,
            col_max: matrix.cols - 1,
        }),
    }
}

/// The rows and columns of the metatiles that hold the tiles of a range.
fn metatile_range(factors: &Factors, tiles: Range) -> Range
    requires x { 1 ≤ factors.now.x }
    requires y { 1 ≤ factors.now.y }
    ensures { result ≡ gathered factors.now tiles }
{
    Range {
        row_min: tiles.row_min / factors.y,
        row_max: tiles.row_max / factors.y,
        col_min: tiles.col_min / factors.x,
        col_max: tiles.col_max / factors.x,
    }
}

/// The rows and columns of the metatiles that hold the tiles of a matrix in the bounds; `None` where no tile lies there.
#[tactic(auto, using(crate::proofs::MetaRanges::gathered_range))]
fn metas_within(factors: &Factors, bounds: Option<Box9>, matrix: &Matrix) -> Option<Range>
    requires x { 1 ≤ factors.now.x }
    requires y { 1 ≤ factors.now.y }
    requires limits { IsWithinLimits matrix.now }
    requires reach { IfSome bounds IsReachable }
    ensures metas { result ≡ option_map (gathered factors.now) (tiles_within bounds matrix.now) }
    ensures range { IfSome result IsMetaRange }
{
    match tiles_within(bounds, matrix) {
        None => None,
        Some(tiles) => Some(metatile_range(factors, tiles)),
    }
}

/// The rows and columns of the metatiles of a cover on its grid's matrix of this number, which has to be that of one; `None`
/// where the cover has no tile there.
#[tactic(auto, using(crate::proofs::MetaRanges::metas_are))]
pub fn metas_at(catalogue: &Catalogue, cover: &Cover, z: u32) -> Option<Range>
    requires valid { IsValid catalogue.now }
    requires cover { IsCoverOf catalogue.now cover.now }
    requires matrix { IsSome (matrix_in catalogue.now cover.now.grid z) }
    ensures metas { result ≡ metas_at catalogue.now cover.now z }
    ensures range { IfSome result IsMetaRange }
{
    let factors = factors_of(catalogue.layer(cover.layer));
    metas_within(&factors, cover.bounds, catalogue.matrix(cover.grid, z))
}

/// How many numbers there are from the first to the last.
fn span(first: u32, last: u32) -> u64
    requires order { first ≤ last }
    requires most { last < 2 ^ 31 }
    ensures value { result ≡ last + 1 - first }
    ensures most { result ≤ 2 ^ 31 }
{
    u64::from(last - first) + 1
}

/// How many metatiles stand in these rows and columns, if any.
pub fn how_many(metas: Option<Range>) -> u64
    requires { IfSome metas IsMetaRange }
    ensures value { (theme : Theme) (grid z : ℕ) → length (metas_in_some theme grid z metas) ≡ result }
    ensures most { result ≤ 2 ^ 62 }
{
    match metas {
        None => 0,
        Some(metas) => span(metas.row_min, metas.row_max) * span(metas.col_min, metas.col_max),
    }
}

/// The metatile at this place among those in these rows and columns, row by row.
#[tactic(auto, using(crate::proofs::MetaRanges::metas_place, crate::proofs::MetaRanges::down_most, crate::proofs::MetaRanges::across_most))]
fn meta_of(theme: Theme, grid: u32, z: u32, metas: Range, place: u128) -> MetaKey
    requires range { IsMetaRange metas }
    requires place { place < length (metas_in theme grid z metas) }
    ensures { slice_get (metas_in theme grid z metas) place ≡ Some result }
{
    let cols = u128::from(span(metas.col_min, metas.col_max));
    let (down, across) = (place / cols, place % cols);
    MetaKey {
        theme,
        grid,
        z,
        row: metas.row_min + down as u32,
        col: metas.col_min + across as u32,
    }
}

/// The metatile at this place among those in these rows and columns, row by row, of which there are some.
pub fn meta_in(theme: Theme, grid: u32, z: u32, metas: Option<Range>, place: u128) -> MetaKey
    requires range { IfSome metas IsMetaRange }
    requires place { place < length (metas_in_some theme grid z metas) }
    ensures { slice_get (metas_in_some theme grid z metas) place ≡ Some result }
{
    match metas {
        None => unreachable!(),
        Some(metas) => meta_of(theme, grid, z, metas, place),
    }
}
