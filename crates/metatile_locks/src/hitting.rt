//! Whether a cover is for some tile of a metatile, told by the metatile's block as a whole.
ghost use Rattle.std.specs.Prelude.{◌≡◌, ◌↔◌, IsTrue};
ghost use Rattle.catalog.specs.Valid.{IsGrid};
ghost use Rattle.matrix_geometry.specs.Limits.{IsWithinLimits};
ghost use Rattle.metatile_locks.specs.Running.{IsPlanOn, block, hits_in};
ghost use Rattle.metatile_plan.specs.Plan.{IsMetaIn, IsPlan};
ghost use Rattle.truncation_list.specs.Covers.{IsWithinReach, hits};

use catalog::Grid;
use matrix_geometry::Matrix;
use metatile_plan::{Factors, MetaKey, tiles_of};
use truncation_list::{Block, Cover, hits};

/// Whether the cover is for some tile of a metatile that lies in this matrix.
fn hits_on(f: &Factors, m: &Matrix, cover: &Cover, meta: &MetaKey) -> bool
    requires limits { IsWithinLimits m.now }
    requires plan { IsPlan f.now m.now }
    requires meta { IsMetaIn f.now m.now meta.now }
    requires reach { IsWithinReach cover.now }
    ensures { result ≡ hits cover.now m.now (block f.now m.now meta.now) }
{
    let block = Block {
        theme: meta.theme,
        grid: meta.grid,
        z: meta.z,
        tiles: tiles_of(meta, f, m),
    };
    hits(cover, m, &block)
}

/// Whether some tile of the metatile lies in the matrix.
fn lies_in(f: &Factors, m: &Matrix, meta: &MetaKey) -> bool
    requires { IsPlan f.now m.now }
    ensures { IsTrue result ↔ IsMetaIn f.now m.now meta.now }
{
    let row = u64::from(meta.row) * u64::from(f.y);
    let col = u64::from(meta.col) * u64::from(f.x);
    row < u64::from(m.rows) && col < u64::from(m.cols)
}

/// Whether the cover is for some tile of a metatile; the block is empty where no tile of it lies in the matrix.
fn hits_at(f: &Factors, m: &Matrix, cover: &Cover, meta: &MetaKey) -> bool
    requires limits { IsWithinLimits m.now }
    requires plan { IsPlan f.now m.now }
    requires reach { IsWithinReach cover.now }
    ensures { result ≡ hits cover.now m.now (block f.now m.now meta.now) }
{
    if lies_in(f, m, meta) {
        return hits_on(f, m, cover, meta);
    }
    false
}

/// Whether a cover is for some tile of a metatile, where the metatiles of its layer are gathered by these factors and its
/// grid is this one. No tile is gone through.
pub fn hits_in(f: &Factors, grid: &Grid, cover: &Cover, meta: &MetaKey) -> bool
    requires grid { IsGrid grid.now }
    requires plan { IsPlanOn f.now grid.now }
    requires reach { IsWithinReach cover.now }
    ensures { result ≡ hits_in f.now grid.now cover.now meta.now }
{
    match grid.matrices.get(meta.z as usize) {
        None => false,
        Some(m) => hits_at(f, m, cover, meta),
    }
}
