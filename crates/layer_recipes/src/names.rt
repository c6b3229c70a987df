//! The names of dimensions among the members of an object.
ghost use Rattle.std.specs.Prelude.{◌≡◌};
ghost use Rattle.catalog.specs.Valid.{IsDimension};
ghost use Rattle.layer_recipes.specs.Dimensions.{are_values, is_value};
ghost use Rattle.serde_json.specs.View.{members_view, view};

use catalog::{Dimension, is_taken};
use serde_json::{Map, Value};
use std::str::from_utf8;

fn is_value(dims: &[Dimension], name: &[u8], value: &Value) -> bool
    ensures { result ≡ is_value dims.now name.now (view value.now) }
{
    is_taken(dims, name) && value.as_str().is_some()
}

/// Whether each member of an object is a text under the name of a dimension.
pub fn are_values(dims: &[Dimension], members: &Map<String, Value>) -> bool
    ensures { result ≡ are_values dims.now (members_view members.now.entries) }
{
    for (name, value) in members {
        if !is_value(dims, name.as_bytes(), value) {
            return false;
        }
    }
    true
}

/// The identifier of a dimension.
pub fn name_of(dimension: &Dimension) -> &str
    requires { IsDimension dimension.now }
    ensures { result.now ≡ dimension.now.id }
{
    match from_utf8(dimension.id.bytes()) {
        Ok(name) => name,
        Err(_) => unreachable!(),
    }
}
