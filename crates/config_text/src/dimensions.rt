//! The dimensions of a layer, read with their values and defaults.
ghost use Rattle.std.specs.Prelude.{◌≡◌, ◌<◌, ◌≤◌, ◌^◌, ◌||◌, List, [], Ok, length, map, IfOk, codes};
ghost use Rattle.catalog.specs.FirstFault.{each, default_test, dimension_name_test, dimension_test};
ghost use Rattle.config_text.specs.Layers.{name_apart, one_of, dimension_of};
ghost use Rattle.config_text.specs.Member.{required, if_any};
ghost use Rattle.config_text.specs.Reading.{Gives, entries};
ghost use Rattle.serde_json.specs.Find.{get};
ghost use Rattle.serde_json.specs.View.{view};

use crate::each::{Entry, each};
use crate::member::text;
use crate::name::required_own_names;
use catalog::{CatalogueFault, Dimension, Field, dimension_name_test, place_named};
use exact_ratio::{Items, Words};
use serde_json::Value;
use std::alloc::Global;

#[tactic(auto, unfolding(crate::specs::Layers::name_apart))]
fn name_apart(
    alloc: Global,
    before: &[Dimension],
    value: &Value,
    field: Field,
    at: u32,
) -> Result<Words, CatalogueFault>
    ensures gives { Gives (λ w. w) result (name_apart before.now field at (view value.now)) }
    ensures met { IfOk result (λ w. dimension_name_test before.now at w ≡ Ok tt) }
{
    let text = text(value, field, at)?;
    dimension_name_test(before, at, text)?;
    Ok(Words::new(alloc, text)?)
}

fn required_name_apart(
    alloc: Global,
    before: &[Dimension],
    object: &Value,
    at: u32,
) -> Result<Words, CatalogueFault>
    ensures gives { Gives (λ w. w) result (required (name_apart before.now) Field.DimensionId at (get (codes "id") (view object.now))) }
    ensures met { IfOk result (λ w. dimension_name_test before.now at w ≡ Ok tt) }
{
    match object.get("id") {
        None => Err(CatalogueFault::Missing(Field::DimensionId, at)),
        Some(value) => name_apart(alloc, before, value, Field::DimensionId, at),
    }
}

/// One of the values, by its number.
#[tactic(auto, unfolding(crate::specs::Layers::one_of))]
fn one_of(values: &[Words], value: &Value, field: Field, at: u32) -> Result<u32, CatalogueFault>
    requires { length values.now ≤ 2 ^ 32 }
    ensures gives { Gives (λ n. n) result (one_of values.now field at (view value.now)) }
    ensures below { IfOk result (λ n. n < length values.now) }
{
    let text = text(value, field, at)?;
    match place_named(values, text) {
        None => Err(CatalogueFault::Bad(field, at)),
        Some(place) => Ok(place),
    }
}

fn default_of(values: &[Words], object: &Value, at: u32) -> Result<Option<u32>, CatalogueFault>
    requires { length values.now ≤ 2 ^ 32 }
    ensures gives { Gives (λ n. n) result (if_any (one_of values.now) Field.Default at (get (codes "default") (view object.now))) }
    ensures met { IfOk result (λ n. default_test at (length values.now) n ≡ Ok tt) }
{
    match object.get("default") {
        None => Ok(None),
        Some(value) => Ok(Some(one_of(values, value, Field::Default, at)?)),
    }
}

/// A dimension, after the dimensions before it.
#[tactic(auto, unfolding(crate::specs::Layers::dimension_of, catalog::specs::FirstFault::dimension_test))]
fn dimension_of(
    alloc: Global,
    before: &[Dimension],
    object: &Value,
) -> Result<Dimension, CatalogueFault>
    requires { length before.now < 2 ^ 32 }
    ensures gives { Gives (λ x. x) result (dimension_of before.now (view object.now)) }
    ensures met { IfOk result (λ x. dimension_test before.now x ≡ Ok tt) }
{
    let at = before.len() as u32;
    let id = required_name_apart(alloc, before, object, at)?;
    let values = required_own_names(alloc, object, "values", Field::Values, at, 1, 1024)?;
    let default = default_of(values.as_slice(), object, at)?;
    Ok(Dimension {
        id,
        values: Items::of(values),
        default,
    })
}

impl Entry for Dimension {
    type Owner = ();

    ghost entry = { λ _ before d. dimension_of before d };

    ghost met = { λ before d. dimension_test before d };

    fn read(
        alloc: Global,
        _owner: &(),
        before: &[Dimension],
        value: &Value,
    ) -> Result<Dimension, CatalogueFault> {
        dimension_of(alloc, before, value)
    }
}

/// The dimensions of a layer.
pub(crate) fn dimensions_of(
    alloc: Global,
    values: &[Value],
) -> Result<Vec<Dimension>, CatalogueFault>
    requires { length values.now ≤ 4 }
    ensures gives { Gives (λ v. v.items) result (entries dimension_of [] (map view values.now)) }
    ensures met { IfOk result (λ v. each dimension_test [] v.items ≡ Ok tt) }
    ensures count { IfOk result (λ v. length v.items ≡ length values.now) }
{
    each(alloc, &(), values)
}
