//! The names of dimensions among the members of an object.
ghost use Rattle.std.specs.Prelude.{◌≡◌};
ghost use Rattle.catalog.specs.Valid.{IsDimension};
ghost use Rattle.job_forms.specs.Values.{are_known, names_in};
ghost use Rattle.serde_json.specs.View.{members_view};

use catalog::{Dimension, is_taken};
use serde_json::{Map, Value};
use std::str::from_utf8;

/// Whether each name of an object's members is that of a dimension.
pub fn are_known(dims: &[Dimension], members: &Map<String, Value>) -> bool
    ensures { result ≡ are_known dims.now (names_in (members_view members.now.entries)) }
{
    for (name, _) in members {
        if !is_taken(dims, name.as_bytes()) {
            return false;
        }
    }
    true
}

/// The identifier of a dimension.
pub fn name_of(dimension: &Dimension) -> &str
    requires { IsDimension dimension.now }
    ensures { result.now ≡ dimension.now.id }
{
    match from_utf8(dimension.id.bytes()) {
        Ok(name) => name,
        Err(_) => unreachable!(),
    }
}
