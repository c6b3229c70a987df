//! The grids of the catalogue's text.
ghost use Rattle.std.specs.Prelude.{◌≡◌, ◌<◌, ◌≤◌, ◌^◌, List, [], Ok, true, length, map, IfOk};
ghost use Rattle.catalog.specs.FirstFault.{each, grid_test};
ghost use Rattle.catalog.specs.Names.{within};
ghost use Rattle.config_text.specs.Grids.{grid_of, grids_of};
ghost use Rattle.config_text.specs.Reading.{Gives, entries};
ghost use Rattle.serde_json.specs.View.{view};

use crate::each::{Entry, each};
use crate::matrices::{matrices_of, parted};
use crate::member::required_objects;
use crate::name::required_id;
use crate::shape::{above_zero_or, required_corner};
use crate::spacing::Ground;
use catalog::{CatalogueFault, Field, Grid};
use exact_ratio::{Decimal, Items};
use serde_json::Value;
use std::alloc::Global;

/// A grid, after those before it.
#[tactic(auto, unfolding(crate::specs::Grids::grid_of))]
fn grid_of(alloc: Global, before: &[Grid], object: &Value) -> Result<Grid, CatalogueFault>
    requires { length before.now < 2 ^ 32 }
    ensures gives { Gives (λ g. g) result (grid_of before.now (view object.now)) }
    ensures met { IfOk result (λ g. grid_test before.now g ≡ Ok tt) }
{
    let at = before.len() as u32;
    let id = required_id(alloc, before, object, Field::GridId, at)?;
    let one = Decimal {
        units: 1,
        places: 0,
    };
    let meters = above_zero_or(object, "metersPerUnit", Field::Meters, at, one)?;
    let corner = required_corner(object, "corner", Field::Corner, at)?;
    let values = required_objects(object, "matrices", Field::Matrices, at, 1, 30)?;
    let matrices = matrices_of(alloc, Ground { meters, corner }, values)?;
    let (names, matrices) = parted(alloc, matrices)?;
    Ok(Grid {
        id,
        names: Items::of(names),
        matrices: Items::of(matrices),
    })
}

impl Entry for Grid {
    type Owner = ();

    ghost entry = { λ _ before d. grid_of before d };

    ghost met = { λ before g. grid_test before g };

    fn read(
        alloc: Global,
        _owner: &(),
        before: &[Grid],
        value: &Value,
    ) -> Result<Grid, CatalogueFault> {
        grid_of(alloc, before, value)
    }
}

fn each_grid(alloc: Global, values: &[Value]) -> Result<Vec<Grid>, CatalogueFault>
    requires { length values.now ≤ 16 }
    ensures gives { Gives (λ v. v.items) result (entries grid_of [] (map view values.now)) }
    ensures met { IfOk result (λ v. each grid_test [] v.items ≡ Ok tt) }
    ensures count { IfOk result (λ v. length v.items ≡ length values.now) }
{
    each(alloc, &(), values)
}

/// The grids of the outermost object.
#[tactic(auto, unfolding(crate::specs::Grids::grids_of))]
pub(crate) fn grids_of(alloc: Global, object: &Value) -> Result<Vec<Grid>, CatalogueFault>
    ensures gives { Gives (λ v. v.items) result (grids_of (view object.now)) }
    ensures met { IfOk result (λ v. each grid_test [] v.items ≡ Ok tt) }
    ensures within { IfOk result (λ v. within 1 16 (length v.items) ≡ true) }
{
    let values = required_objects(object, "grids", Field::Grids, 0, 1, 16)?;
    each_grid(alloc, values)
}
