//! The first fault of a whole catalogue.
ghost use Rattle.std.specs.Prelude.{◌≡◌, ◌≤◌, [], length, OnOk};
ghost use Rattle.catalog.specs.FirstFault.{each, grid_test, first_fault};
ghost use Rattle.catalog.specs.Valid.{IsValid};

use crate::catalogue::Catalogue;
use crate::fault::{CatalogueFault, Field};
use crate::first_fault::{each, quota_test, unless};
use crate::grid::Grid;
use crate::names::within;
use crate::valid_layer::each_layer;

fn each_grid(grids: &[Grid]) -> Result<(), CatalogueFault>
    requires { length grids.now ≤ 16 }
    ensures { result ≡ each grid_test [] grids.now }
{
    each(grids)
}

#[tactic(auto, unfolding(crate::specs::FirstFault::first_fault))]
fn first_fault(catalogue: &Catalogue) -> Result<(), CatalogueFault>
    ensures { result ≡ first_fault catalogue.now }
{
    unless(
        within(1, 1_048_576, u64::from(catalogue.kept_limit)),
        CatalogueFault::Limit(Field::KeptLimit, 0),
    )?;
    unless(
        within(1, 65_536, u64::from(catalogue.cut_limit)),
        CatalogueFault::Limit(Field::CutLimit, 0),
    )?;
    unless(
        within(1, 1 << 40, catalogue.blob_bytes),
        CatalogueFault::Limit(Field::BlobBytes, 0),
    )?;
    quota_test(Field::Quota, 0, catalogue.quota)?;
    unless(
        within(1, 16, catalogue.grids.len() as u64),
        CatalogueFault::Limit(Field::Grids, 0),
    )?;
    each_grid(catalogue.grids.as_slice())?;
    unless(
        within(1, 64, catalogue.layers.len() as u64),
        CatalogueFault::Limit(Field::Layers, 0),
    )?;
    each_layer(catalogue.grids.as_slice(), catalogue.layers.as_slice())
}

impl Catalogue {
    /// The first fault of the catalogue in the order of its text: the members of an object one after the other, and the
    /// objects of a list whole. A span counts as given by `span`, and a grid whose names and matrices aren't equally many
    /// is `Bad(Matrices, ..)`, before the limit on their number. It takes no memory.
    pub fn validate(&self) -> Result<(), CatalogueFault>
        ensures first { result ≡ first_fault self.now }
        ensures valid { OnOk result (IsValid self.now) }
    {
        first_fault(self)
    }
}
