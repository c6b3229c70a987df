//! Members that are whole numbers, texts or lists, required or with a default.
ghost use Rattle.std.specs.List.{list_all};
ghost use Rattle.std.specs.Prelude.{◌≡◌, [], map, length, true, IfOk, IfSome};
ghost use Rattle.catalog.specs.Names.{within};
ghost use Rattle.config_text.specs.Member.{required, or, if_any, of_kind, whole, items, is_object, objects};
ghost use Rattle.config_text.specs.Reading.{Gives};
ghost use Rattle.json_forms.specs.Forms.{number_of};
ghost use Rattle.serde_json.specs.Find.{get, as_str};
ghost use Rattle.serde_json.specs.View.{view};

use catalog::{CatalogueFault, Field, unless, within};
use json_forms::values_of;
use serde_json::Value;

/// A number without a sign, a fraction or an exponent.
pub(crate) fn number(value: &Value, field: Field, at: u32) -> Result<u64, CatalogueFault>
    ensures { Gives (λ n. n) result (of_kind (number_of (view value.now)) field at) }
{
    match value.as_u64() {
        None => Err(CatalogueFault::Bad(field, at)),
        Some(n) => Ok(n),
    }
}

/// A whole number from `low` to `high`.
#[tactic(auto, unfolding(crate::specs::Member::whole))]
fn whole(value: &Value, field: Field, at: u32, low: u64, high: u64) -> Result<u64, CatalogueFault>
    ensures gives { Gives (λ n. n) result (whole low high field at (view value.now)) }
    ensures within { IfOk result (λ n. within low high n ≡ true) }
{
    let n = number(value, field, at)?;
    unless(within(low, high, n), CatalogueFault::Limit(field, at))?;
    Ok(n)
}

/// A whole number from `low` to `high`, or the default where the member is absent.
pub(crate) fn whole_or(
    object: &Value,
    name: &str,
    field: Field,
    at: u32,
    low: u64,
    high: u64,
    default: u64,
) -> Result<u64, CatalogueFault>
    requires { within low high default ≡ true }
    ensures gives { Gives (λ n. n) result (or default (whole low high) field at (get name.now (view object.now))) }
    ensures within { IfOk result (λ n. within low high n ≡ true) }
{
    match object.get(name) {
        None => Ok(default),
        Some(value) => whole(value, field, at, low, high),
    }
}

/// A whole number from `low` to `high` that has to be there.
pub(crate) fn required_whole(
    object: &Value,
    name: &str,
    field: Field,
    at: u32,
    low: u64,
    high: u64,
) -> Result<u64, CatalogueFault>
    ensures gives { Gives (λ n. n) result (required (whole low high) field at (get name.now (view object.now))) }
    ensures within { IfOk result (λ n. within low high n ≡ true) }
{
    match object.get(name) {
        None => Err(CatalogueFault::Missing(field, at)),
        Some(value) => whole(value, field, at, low, high),
    }
}

/// A whole number up to `high` that may be absent.
pub(crate) fn whole_if_any(
    object: &Value,
    name: &str,
    field: Field,
    at: u32,
    high: u64,
) -> Result<Option<u64>, CatalogueFault>
    ensures gives { Gives (λ n. n) result (if_any (whole 0 high) field at (get name.now (view object.now))) }
    ensures within { IfOk result (λ o. IfSome o (λ n. within 0 high n ≡ true)) }
{
    match object.get(name) {
        None => Ok(None),
        Some(value) => Ok(Some(whole(value, field, at, 0, high)?)),
    }
}

/// The bytes of a text.
pub(crate) fn text(value: &Value, field: Field, at: u32) -> Result<&[u8], CatalogueFault>
    ensures { Gives (λ text. text.now) result (of_kind (as_str (view value.now)) field at) }
{
    match value.as_str() {
        None => Err(CatalogueFault::Bad(field, at)),
        Some(text) => Ok(text.as_bytes()),
    }
}

/// The values of a list.
pub(crate) fn items(value: &Value, field: Field, at: u32) -> Result<&[Value], CatalogueFault>
    ensures { Gives (λ vs. map view vs.now) result (items field at (view value.now)) }
{
    match values_of(value) {
        None => Err(CatalogueFault::Bad(field, at)),
        Some(values) => Ok(values),
    }
}

fn are_objects(values: &[Value]) -> bool
    ensures { result ≡ list_all is_object (map view values.now) }
{
    for value in values {
        if !value.is_object() {
            return false;
        }
    }
    true
}

/// A list of objects, from `low` to `high` of them.
#[tactic(auto, unfolding(crate::specs::Member::objects))]
fn objects(
    value: &Value,
    field: Field,
    at: u32,
    low: u64,
    high: u64,
) -> Result<&[Value], CatalogueFault>
    ensures gives { Gives (λ vs. map view vs.now) result (objects low high field at (view value.now)) }
    ensures within { IfOk result (λ vs. within low high (length vs.now) ≡ true) }
{
    let values = items(value, field, at)?;
    if !are_objects(values) {
        return Err(CatalogueFault::Bad(field, at));
    }
    unless(
        within(low, high, values.len() as u64),
        CatalogueFault::Limit(field, at),
    )?;
    Ok(values)
}

/// A list of objects that has to be there.
pub(crate) fn required_objects<'v>(
    object: &'v Value,
    name: &str,
    field: Field,
    at: u32,
    low: u64,
    high: u64,
) -> Result<&'v [Value], CatalogueFault>
    ensures gives { Gives (λ vs. map view vs.now) result (required (objects low high) field at (get name.now (view object.now))) }
    ensures within { IfOk result (λ vs. within low high (length vs.now) ≡ true) }
{
    match object.get(name) {
        None => Err(CatalogueFault::Missing(field, at)),
        Some(value) => objects(value, field, at, low, high),
    }
}

/// A list of at most `high` objects, or none where the member is absent.
pub(crate) fn objects_or_none<'v>(
    object: &'v Value,
    name: &str,
    field: Field,
    at: u32,
    high: u64,
) -> Result<&'v [Value], CatalogueFault>
    ensures gives { Gives (λ vs. map view vs.now) result (or [] (objects 0 high) field at (get name.now (view object.now))) }
    ensures within { IfOk result (λ vs. within 0 high (length vs.now) ≡ true) }
{
    match object.get(name) {
        None => Ok(&[]),
        Some(value) => objects(value, field, at, 0, high),
    }
}
