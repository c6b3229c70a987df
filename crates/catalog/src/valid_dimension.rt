//! The first fault of a dimension: its name, its values and its default.
ghost use Rattle.std.specs.List.{list_any};
ghost use Rattle.std.specs.Prelude.{◌≡◌, ◌<◌, ◌≤◌, ◌^◌, length};
ghost use Rattle.catalog.specs.FirstFault.{dimension_name_test, default_test, dimension_test};
ghost use Rattle.catalog.specs.Names.{is_same};

use crate::fault::{CatalogueFault, Field};
use crate::first_fault::{Entry, names_test, unless};
use crate::layer::Dimension;
use crate::named::Named;
use crate::names::{are_distinct, is_name, is_parameter, is_same, is_short};

impl Named for Dimension {
    ghost name = { λ d. d.id };

    fn name(&self) -> &[u8] {
        self.id.bytes()
    }
}

fn has_same(before: &[Dimension], name: &[u8]) -> bool
    ensures { result ≡ list_any (λ x. is_same x.id name.now) before.now }
{
    for dimension in before {
        if is_same(dimension.id.bytes(), name) {
            return true;
        }
    }
    false
}

/// Tests a name of a dimension beside the dimensions before.
#[tactic(auto, unfolding(crate::specs::FirstFault::dimension_name_test))]
pub fn dimension_name_test(before: &[Dimension], at: u32, name: &[u8]) -> Result<(), CatalogueFault>
    ensures { result ≡ dimension_name_test before.now at name.now }
{
    unless(is_name(name), CatalogueFault::Bad(Field::DimensionId, at))?;
    unless(
        is_short(name),
        CatalogueFault::Limit(Field::DimensionId, at),
    )?;
    unless(
        !is_parameter(name),
        CatalogueFault::Duplicate(Field::DimensionId, at),
    )?;
    unless(
        !has_same(before, name),
        CatalogueFault::Duplicate(Field::DimensionId, at),
    )
}

fn default_test(at: u32, count: usize, default: Option<u32>) -> Result<(), CatalogueFault>
    ensures { result ≡ default_test at count default }
{
    match default {
        None => Ok(()),
        Some(number) => {
            unless(
                (number as usize) < count,
                CatalogueFault::Bad(Field::Default, at),
            )
        }
    }
}

#[tactic(auto, unfolding(crate::specs::FirstFault::dimension_test))]
fn dimension_test(before: &[Dimension], dimension: &Dimension) -> Result<(), CatalogueFault>
    requires { length before.now < 2 ^ 32 }
    ensures { result ≡ dimension_test before.now dimension.now }
{
    let at = before.len() as u32;
    let values = dimension.values.as_slice();
    dimension_name_test(before, at, dimension.id.bytes())?;
    names_test(1, 1024, Field::Values, at, values)?;
    unless(
        are_distinct(values),
        CatalogueFault::Duplicate(Field::Values, at),
    )?;
    default_test(at, values.len(), dimension.default)
}

impl Entry for Dimension {
    ghost test = { λ before d. dimension_test before d };

    fn test(&self, before: &[Dimension]) -> Result<(), CatalogueFault> {
        dimension_test(before, self)
    }
}
