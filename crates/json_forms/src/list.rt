//! The values of a JSON array.
ghost use Rattle.std.specs.Prelude.{◌≡◌, map, option_map};
ghost use Rattle.json_forms.specs.Forms.{values_of};
ghost use Rattle.serde_json.specs.View.{view};

use serde_json::Value;

/// The values of a list; `None` where the value isn't a list.
#[tactic(auto, using(crate::proofs::Lists::list_items))]
pub fn values_of(value: &Value) -> Option<&[Value]>
    ensures { option_map (λ values. map view values.now) result ≡ values_of (view value.now) }
{
    match value.as_array() {
        None => None,
        Some(list) => Some(list.as_slice()),
    }
}
