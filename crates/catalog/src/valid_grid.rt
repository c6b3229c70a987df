//! The first fault of a grid, and the limits on each of its matrices.
ghost use Rattle.std.specs.Prelude.{◌≡◌, ◌<◌, ◌≤◌, ◌^◌, [], length, IsTrue};
ghost use Rattle.catalog.specs.FirstFault.{is_near, has_span, is_fine, has_tile, has_size, is_extent, has_extent, matrix_test, matrices_test, grid_test};

use crate::fault::{CatalogueFault, Field};
use crate::first_fault::{Entry, name_test, unless};
use crate::grid::Grid;
use crate::named::Named;
use crate::names::within;
use exact_ratio::Words;
use matrix_geometry::Matrix;

fn is_near(m: &Matrix) -> bool
    ensures { result ≡ is_near m.now }
{
    m.left.unsigned_abs() <= 100_000_000_000_000_000
        && m.top.unsigned_abs() <= 100_000_000_000_000_000
}

fn has_span(m: &Matrix) -> bool
    ensures { result ≡ has_span m.now }
{
    0 < m.span.n && 0 < m.span.d
}

fn is_fine(m: &Matrix) -> bool
    ensures { result ≡ is_fine m.now }
{
    m.span.n.unsigned_abs() <= 100_000_000_000_000_000_000
        && m.span.d.unsigned_abs() <= 1_000_000_000_000_000_000
}

fn has_tile(m: &Matrix) -> bool
    ensures { result ≡ has_tile m.now }
{
    within(1, 512, u64::from(m.tile_w)) && within(1, 512, u64::from(m.tile_h))
}

fn has_size(m: &Matrix) -> bool
    ensures { result ≡ has_size m.now }
{
    within(1, 1 << 31, u64::from(m.cols)) && within(1, 1 << 31, u64::from(m.rows))
}

fn is_extent(count: u32, tile: u32, n: u128, d: u128) -> bool
    requires count { count ≤ 2 ^ 31 }
    requires tile { tile ≤ 512 }
    requires n { n ≤ 10 ^ 20 }
    requires d { d ≤ 10 ^ 18 }
    ensures { result ≡ is_extent count tile n d }
{
    let pixels = u128::from(count) * u128::from(tile);
    pixels * n <= 1_000_000_000 * d
}

fn has_extent(m: &Matrix) -> bool
    requires fine { IsTrue (is_fine m.now) }
    requires tile { IsTrue (has_tile m.now) }
    requires size { IsTrue (has_size m.now) }
    ensures { result ≡ has_extent m.now }
{
    let n = m.span.n.unsigned_abs();
    let d = m.span.d.unsigned_abs();
    is_extent(m.cols, m.tile_w, n, d) && is_extent(m.rows, m.tile_h, n, d)
}

/// Tests a matrix by itself.
#[tactic(auto, unfolding(crate::specs::FirstFault::matrix_test))]
fn matrix_test(at: u32, m: &Matrix) -> Result<(), CatalogueFault>
    ensures { result ≡ matrix_test at m.now }
{
    unless(is_near(m), CatalogueFault::Limit(Field::MatrixCorner, at))?;
    unless(has_span(m), CatalogueFault::Bad(Field::Span, at))?;
    unless(is_fine(m), CatalogueFault::Limit(Field::Span, at))?;
    unless(has_tile(m), CatalogueFault::Limit(Field::Tile, at))?;
    unless(has_size(m), CatalogueFault::Limit(Field::Size, at))?;
    unless(has_extent(m), CatalogueFault::Limit(Field::Size, at))
}

/// Tests the matrices of a grid with their names, of which there are as many.
fn matrices_test(names: &[Words], matrices: &[Matrix]) -> Result<(), CatalogueFault>
    requires same { length names.now ≡ length matrices.now }
    requires few { length names.now ≤ 2 ^ 32 }
    ensures { result ≡ matrices_test [] names.now matrices.now }
{
    for (i, name) in names.iter().enumerate() {
        let at = i as u32;
        let matrix = &matrices[i];
        name_test(&names[..i], Field::MatrixId, at, name.bytes())?;
        matrix_test(at, matrix)?;
    }
    Ok(())
}

impl Named for Grid {
    ghost name = { λ g. g.id };

    fn name(&self) -> &[u8] {
        self.id.bytes()
    }
}

#[tactic(auto, unfolding(crate::specs::FirstFault::grid_test))]
fn grid_test(before: &[Grid], grid: &Grid) -> Result<(), CatalogueFault>
    requires { length before.now < 2 ^ 32 }
    ensures { result ≡ grid_test before.now grid.now }
{
    let at = before.len() as u32;
    name_test(before, Field::GridId, at, grid.id.bytes())?;
    unless(
        grid.names.len() == grid.matrices.len(),
        CatalogueFault::Bad(Field::Matrices, at),
    )?;
    unless(
        within(1, 30, grid.matrices.len() as u64),
        CatalogueFault::Limit(Field::Matrices, at),
    )?;
    matrices_test(grid.names.as_slice(), grid.matrices.as_slice())
}

impl Entry for Grid {
    ghost test = { λ before g. grid_test before g };

    fn test(&self, before: &[Grid]) -> Result<(), CatalogueFault> {
        grid_test(before, self)
    }
}
