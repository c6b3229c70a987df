//! The values of dimensions that a cover is for.
ghost use Rattle.std.specs.Prelude.{◌≡◌, ◌<◌, ◌≤◌, ℕ, Some, codes, option_copied, option_map, IfOk, IfSome, IsSomeAnd, length, slice_get};
ghost use Rattle.catalog.specs.LookUp.{dimension_at};
ghost use Rattle.catalog.specs.Names.{place_named};
ghost use Rattle.catalog.specs.Valid.{IsDimension, IsValid};
ghost use Rattle.job_forms.specs.Values as spec;
ghost use Rattle.job_forms.specs.Values.{known, wanted, values, values_or_any};
ghost use Rattle.serde_json.specs.Find.{get};
ghost use Rattle.serde_json.specs.View.{members_view, view};

use crate::fault::{JobFault, JobField};
use crate::names::{are_known, name_of};
use catalog::{Catalogue, Dimension, place_named};
use serde_json::{Map, Value};

fn known_members<'v>(dims: &[Dimension], value: &'v Value) -> Option<&'v Map<String, Value>>
    ensures { option_map (λ m. members_view m.now.entries) result ≡ known dims.now (view value.now) }
{
    let members = value.as_object()?;
    if are_known(dims, members) {
        Some(members)
    } else {
        None
    }
}

fn value_named(dimension: &Dimension, name: &[u8]) -> Option<u32>
    requires { IsDimension dimension.now }
    ensures value { result ≡ place_named (λ v. v) dimension.now.values name.now }
    ensures there { IfSome result (λ number. number < length dimension.now.values) }
{
    place_named(dimension.values.as_slice(), name)
}

fn value(dimension: &Dimension, value: &Value) -> Option<u32>
    requires { IsDimension dimension.now }
    ensures value { result ≡ spec.value dimension.now (view value.now) }
    ensures there { IfSome result (λ number. number < length dimension.now.values) }
{
    match value.as_str() {
        Some(name) => value_named(dimension, name.as_bytes()),
        None => None,
    }
}

fn wanted_value(dimension: Option<&Dimension>, object: &Value) -> Result<Option<u32>, JobFault>
    requires { IfSome dimension (λ d. IsDimension d.now) }
    ensures value { result ≡ wanted (option_copied dimension.entry) (view object.now) }
    ensures there { IfOk result (λ number. IfSome number (λ n. IsSomeAnd (option_copied dimension.entry) (λ d. n < length d.values))) }
{
    let Some(dimension) = dimension else {
        return Ok(None);
    };
    match object.get(name_of(dimension)) {
        None => Ok(None),
        Some(named) => match value(dimension, named) {
            Some(number) => Ok(Some(number)),
            None => Err(JobFault::Bad(JobField::Dimensions)),
        },
    }
}

/// The values of a layer's dimensions that an object names.
#[tactic(auto, unfolding(crate::specs::Values::values))]
fn values(catalogue: &Catalogue, layer: u32, object: &Value) -> Result<[Option<u32>; 4], JobFault>
    requires { IsValid catalogue.now }
    ensures value { result ≡ values catalogue.now layer (view object.now) }
    ensures there { IfOk result (λ dims. (dim number : ℕ) → slice_get dims dim ≡ Some (Some number) → IsSomeAnd (dimension_at catalogue.now layer dim) (λ d. number < length d.values)) }
{
    known_members(catalogue.dimensions_of(layer), object).ok_or(JobFault::Bad(
        JobField::Dimensions,
    ))?;
    let first = wanted_value(catalogue.dimension_at(layer, 0), object)?;
    let second = wanted_value(catalogue.dimension_at(layer, 1), object)?;
    let third = wanted_value(catalogue.dimension_at(layer, 2), object)?;
    let fourth = wanted_value(catalogue.dimension_at(layer, 3), object)?;
    Ok([first, second, third, fourth])
}

/// The values of a layer's dimensions that a cover is for; any where it names none.
pub fn values_or_any(
    catalogue: &Catalogue,
    layer: u32,
    object: &Value,
) -> Result<[Option<u32>; 4], JobFault>
    requires { IsValid catalogue.now }
    ensures value { result ≡ values_or_any catalogue.now layer (get (codes "dimensions") (view object.now)) }
    ensures there { IfOk result (λ dims. (dim number : ℕ) → slice_get dims dim ≡ Some (Some number) → IsSomeAnd (dimension_at catalogue.now layer dim) (λ d. number < length d.values)) }
{
    match object.get("dimensions") {
        None => Ok([None, None, None, None]),
        Some(value) => values(catalogue, layer, value),
    }
}
