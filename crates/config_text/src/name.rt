//! Members that are names: identifiers, each beside those before it, and lists of names.
ghost use Rattle.std.specs.List.{list_all};
ghost use Rattle.std.specs.Prelude.{◌≡◌, map, codes, true, IfOk};
ghost use Rattle.catalog.specs.FirstFault.{name_test, names_test};
ghost use Rattle.catalog.specs.Names.{are_distinct};
ghost use Rattle.config_text.specs.Member.{required, name_beside, is_text, text_of, texts, names, own_names};
ghost use Rattle.config_text.specs.Reading.{Gives};
ghost use Rattle.serde_json.specs.Find.{get};
ghost use Rattle.serde_json.specs.View.{view};

use crate::member::{items, text};
use catalog::{CatalogueFault, Field, Named, are_distinct, name_test, names_test, unless};
use exact_ratio::Words;
use serde_json::Value;
use std::alloc::{AllocError, Global};

/// An identifier beside those of the entries before.
#[tactic(auto, unfolding(crate::specs::Member::name_beside))]
fn name_beside<T: Named>(
    alloc: Global,
    before: &[T],
    value: &Value,
    field: Field,
    at: u32,
) -> Result<Words, CatalogueFault>
    ensures gives { Gives (λ w. w) result (name_beside T.name before.now field at (view value.now)) }
    ensures met { IfOk result (λ w. name_test T.name before.now field at w ≡ Ok tt) }
{
    let text = text(value, field, at)?;
    name_test(before, field, at, text)?;
    Ok(Words::new(alloc, text)?)
}

/// The `id` of an object, beside those of the entries before.
pub(crate) fn required_id<T: Named>(
    alloc: Global,
    before: &[T],
    object: &Value,
    field: Field,
    at: u32,
) -> Result<Words, CatalogueFault>
    ensures gives { Gives (λ w. w) result (required (name_beside T.name before.now) field at (get (codes "id") (view object.now))) }
    ensures met { IfOk result (λ w. name_test T.name before.now field at w ≡ Ok tt) }
{
    match object.get("id") {
        None => Err(CatalogueFault::Missing(field, at)),
        Some(value) => name_beside(alloc, before, value, field, at),
    }
}

fn are_texts(values: &[Value]) -> bool
    ensures { result ≡ list_all is_text (map view values.now) }
{
    for value in values {
        if !value.is_string() {
            return false;
        }
    }
    true
}

fn text_of(value: &Value) -> &[u8]
    ensures { result.now ≡ text_of (view value.now) }
{
    match value.as_str() {
        None => &[],
        Some(text) => text.as_bytes(),
    }
}

fn texts_of(alloc: Global, values: &[Value]) -> Result<Vec<Words>, AllocError>
    ensures { IfOk result (λ v. v.items ≡ map text_of (map view values.now)) }
{
    let mut texts = Vec::with_capacity(alloc, values.len())?;
    for value in values {
        let text = Words::new(alloc, text_of(value))?;
        texts.push(text)?;
    }
    Ok(texts)
}

/// A list of texts.
#[tactic(auto, unfolding(crate::specs::Member::texts))]
fn texts(alloc: Global, value: &Value, field: Field, at: u32) -> Result<Vec<Words>, CatalogueFault>
    ensures { Gives (λ v. v.items) result (texts field at (view value.now)) }
{
    let values = items(value, field, at)?;
    if !are_texts(values) {
        return Err(CatalogueFault::Bad(field, at));
    }
    Ok(texts_of(alloc, values)?)
}

/// A list of names, from `low` to `high` of them.
#[tactic(auto, unfolding(crate::specs::Member::names))]
fn names(
    alloc: Global,
    value: &Value,
    field: Field,
    at: u32,
    low: u64,
    high: u64,
) -> Result<Vec<Words>, CatalogueFault>
    ensures gives { Gives (λ v. v.items) result (names low high field at (view value.now)) }
    ensures met { IfOk result (λ v. names_test low high field at v.items ≡ Ok tt) }
{
    let all = texts(alloc, value, field, at)?;
    names_test(low, high, field, at, all.as_slice())?;
    Ok(all)
}

/// A list of names that has to be there.
pub(crate) fn required_names(
    alloc: Global,
    object: &Value,
    name: &str,
    field: Field,
    at: u32,
    low: u64,
    high: u64,
) -> Result<Vec<Words>, CatalogueFault>
    ensures gives { Gives (λ v. v.items) result (required (names low high) field at (get name.now (view object.now))) }
    ensures met { IfOk result (λ v. names_test low high field at v.items ≡ Ok tt) }
{
    match object.get(name) {
        None => Err(CatalogueFault::Missing(field, at)),
        Some(value) => names(alloc, value, field, at, low, high),
    }
}

/// A list of names, each of them once.
#[tactic(auto, unfolding(crate::specs::Member::own_names))]
fn own_names(
    alloc: Global,
    value: &Value,
    field: Field,
    at: u32,
    low: u64,
    high: u64,
) -> Result<Vec<Words>, CatalogueFault>
    ensures gives { Gives (λ v. v.items) result (own_names low high field at (view value.now)) }
    ensures met { IfOk result (λ v. names_test low high field at v.items ≡ Ok tt) }
    ensures distinct { IfOk result (λ v. are_distinct v.items ≡ true) }
{
    let all = names(alloc, value, field, at, low, high)?;
    unless(
        are_distinct(all.as_slice()),
        CatalogueFault::Duplicate(field, at),
    )?;
    Ok(all)
}

/// A list of names, each of them once, that has to be there.
pub(crate) fn required_own_names(
    alloc: Global,
    object: &Value,
    name: &str,
    field: Field,
    at: u32,
    low: u64,
    high: u64,
) -> Result<Vec<Words>, CatalogueFault>
    ensures gives { Gives (λ v. v.items) result (required (own_names low high) field at (get name.now (view object.now))) }
    ensures met { IfOk result (λ v. names_test low high field at v.items ≡ Ok tt) }
    ensures distinct { IfOk result (λ v. are_distinct v.items ≡ true) }
{
    match object.get(name) {
        None => Err(CatalogueFault::Missing(field, at)),
        Some(value) => own_names(alloc, value, field, at, low, high),
    }
}
