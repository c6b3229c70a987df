//! Members that are whole numbers, texts or lists.
ghost use Rattle.std.specs.List.{list_all};
ghost use Rattle.std.specs.Prelude.{◌≡◌, ◌≤◌, [], map, length, true, IfOk};
ghost use Rattle.json_forms.specs.Forms.{number_of, values_of};
ghost use Rattle.http_source.specs.Members.{is_object, is_within, objects, of_kind, or, required, text, whole};
ghost use Rattle.http_source.specs.Outcome.{Gives};
ghost use Rattle.serde_json.specs.Find.{get};
ghost use Rattle.serde_json.specs.View.{view};

use crate::fault::{RendererFault, RendererField};
use json_forms::values_of;
use serde_json::Value;

fn number(value: &Value, field: RendererField, at: u32) -> Result<u64, RendererFault>
    ensures { Gives (λ n. n) result (of_kind (number_of (view value.now)) field at) }
{
    match value.as_u64() {
        None => Err(RendererFault::Bad(field, at)),
        Some(n) => Ok(n),
    }
}

fn is_within(low: u32, high: u32, n: u64) -> bool
    ensures value { result ≡ is_within low high n }
    ensures least { result ≡ true → low ≤ n }
    ensures most { result ≡ true → n ≤ high }
{
    u64::from(low) <= n && n <= u64::from(high)
}

/// A whole number from `low` to `high`.
#[tactic(auto, unfolding(crate::specs::Members::whole))]
fn whole(value: &Value, field: RendererField, low: u32, high: u32) -> Result<u32, RendererFault>
    ensures gives { Gives (λ n. n) result (whole low high field 0 (view value.now)) }
    ensures least { IfOk result (λ n. low ≤ n) }
    ensures most { IfOk result (λ n. n ≤ high) }
{
    let n = match number(value, field, 0) {
        Ok(n) => n,
        Err(fault) => return Err(fault),
    };
    if !is_within(low, high, n) {
        return Err(RendererFault::Limit(field, 0));
    }
    Ok(n as u32)
}

/// A whole number from `low` to `high` of the outermost object, or the default where the member is absent.
pub(crate) fn whole_or(
    object: &Value,
    name: &str,
    field: RendererField,
    low: u32,
    high: u32,
    default: u32,
) -> Result<u32, RendererFault>
    requires least { low ≤ default }
    requires most { default ≤ high }
    ensures gives { Gives (λ n. n) result (or default (whole low high) field 0 (get name.now (view object.now))) }
    ensures least { IfOk result (λ n. low ≤ n) }
    ensures most { IfOk result (λ n. n ≤ high) }
{
    match object.get(name) {
        None => Ok(default),
        Some(value) => whole(value, field, low, high),
    }
}

/// The bytes of a text.
pub(crate) fn text(value: &Value, field: RendererField, at: u32) -> Result<&[u8], RendererFault>
    ensures { Gives (λ s. s.now) result (text field at (view value.now)) }
{
    match value.as_str() {
        None => Err(RendererFault::Bad(field, at)),
        Some(text) => Ok(text.as_bytes()),
    }
}

/// The bytes of a text that has to be there.
pub(crate) fn required_text<'v>(
    object: &'v Value,
    name: &str,
    field: RendererField,
    at: u32,
) -> Result<&'v [u8], RendererFault>
    ensures { Gives (λ s. s.now) result (required text field at (get name.now (view object.now))) }
{
    match object.get(name) {
        None => Err(RendererFault::Missing(field, at)),
        Some(value) => text(value, field, at),
    }
}

fn are_objects(values: &[Value]) -> bool
    ensures { result ≡ list_all is_object (map view values.now) }
{
    for value in values {
        if !value.is_object() {
            return false;
        }
    }
    true
}

/// A list of at most 64 objects.
#[tactic(auto, unfolding(crate::specs::Members::objects))]
fn objects(value: &Value, field: RendererField) -> Result<&[Value], RendererFault>
    ensures gives { Gives (λ vs. map view vs.now) result (objects field 0 (view value.now)) }
    ensures few { IfOk result (λ vs. length vs.now ≤ 64) }
{
    let Some(values) = values_of(value) else {
        return Err(RendererFault::Bad(field, 0));
    };
    if !are_objects(values) {
        return Err(RendererFault::Bad(field, 0));
    }
    if values.len() > 64 {
        return Err(RendererFault::Limit(field, 0));
    }
    Ok(values)
}

/// A list of at most 64 objects in the outermost object, or none where the member is absent.
pub(crate) fn objects_or_none<'v>(
    object: &'v Value,
    name: &str,
    field: RendererField,
) -> Result<&'v [Value], RendererFault>
    ensures gives { Gives (λ vs. map view vs.now) result (or [] objects field 0 (get name.now (view object.now))) }
    ensures few { IfOk result (λ vs. length vs.now ≤ 64) }
{
    match object.get(name) {
        None => Ok(&[]),
        Some(value) => objects(value, field),
    }
}
