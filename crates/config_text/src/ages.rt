//! The age limits of a layer.
ghost use Rattle.std.specs.List.{list_all};
ghost use Rattle.std.specs.Prelude.{◌≡◌, ◌≤◌, ◌&&◌, [], length, map, nat_le, true, IfOk, codes};
ghost use Rattle.catalog.specs.FirstFault.{zooms_rise};
ghost use Rattle.config_text.specs.Ages.{age_of, age_row, ages, ages_in, is_age};
ghost use Rattle.config_text.specs.Member.{or};
ghost use Rattle.config_text.specs.Reading.{Gives, entries};
ghost use Rattle.serde_json.specs.Find.{get};
ghost use Rattle.serde_json.specs.View.{view};

use crate::member::{items, number};
use crate::row::AgeRow;
use crate::shape::two;
use catalog::{Age, CatalogueFault, Field, unless, zooms_rise};
use serde_json::Value;
use std::alloc::{AllocError, Global};

#[tactic(auto, unfolding(crate::specs::Ages::age_row))]
fn age_row(at: u32, value: &Value) -> Result<AgeRow, CatalogueFault>
    ensures { Gives (λ r. r) result (age_row at (view value.now)) }
{
    let (zoom, seconds) = two(value, Field::Ages, at)?;
    let zoom = number(zoom, Field::Ages, at)?;
    let seconds = number(seconds, Field::Ages, at)?;
    Ok(AgeRow { zoom, seconds })
}

fn rows_of(alloc: Global, at: u32, values: &[Value]) -> Result<Vec<AgeRow>, CatalogueFault>
    ensures { Gives (λ v. v.items) result (entries (λ before. age_row at) [] (map view values.now)) }
{
    let mut rows = Vec::new(alloc);
    for value in values {
        let row = age_row(at, value)?;
        rows.push(row)?;
    }
    Ok(rows)
}

fn is_age(row: AgeRow) -> bool
    ensures { result ≡ is_age row }
{
    row.zoom <= 29 && row.seconds <= 0xffff_ffff
}

fn all_ages(rows: &[AgeRow]) -> bool
    ensures { result ≡ list_all is_age rows.now }
{
    rows.iter().all(|row| is_age(*row))
}

fn age_of(row: AgeRow) -> Age
    ensures { result ≡ age_of row }
{
    Age {
        zoom: row.zoom.min(29) as u32,
        seconds: row.seconds.min(0xffff_ffff) as u32,
    }
}

fn ages_of(alloc: Global, rows: &[AgeRow]) -> Result<Vec<Age>, AllocError>
    ensures { IfOk result (λ v. v.items ≡ map age_of rows.now) }
{
    rows.iter().map(|row| age_of(*row)).collect(alloc)
}

/// The ages of rows, tested by their number, their limits and their order.
#[tactic(auto, unfolding(crate::specs::Ages::ages_in), using(crate::proofs::AgeRows::few_ages))]
fn tested_ages(
    alloc: Global,
    rows: &[AgeRow],
    field: Field,
    at: u32,
) -> Result<Vec<Age>, CatalogueFault>
    ensures gives { Gives (λ v. v.items) result (ages_in rows.now field at) }
    ensures few { IfOk result (λ v. nat_le (length v.items) 30 ≡ true) }
    ensures rise { IfOk result (λ v. zooms_rise 0 v.items ≡ true) }
{
    unless(rows.len() <= 30, CatalogueFault::Limit(field, at))?;
    unless(all_ages(rows), CatalogueFault::Bad(field, at))?;
    let ages = ages_of(alloc, rows)?;
    unless(zooms_rise(ages.as_slice()), CatalogueFault::Bad(field, at))?;
    Ok(ages)
}

#[tactic(auto, unfolding(crate::specs::Ages::ages))]
fn ages(alloc: Global, value: &Value, field: Field, at: u32) -> Result<Vec<Age>, CatalogueFault>
    requires { field ≡ Field.Ages }
    ensures gives { Gives (λ v. v.items) result (ages field at (view value.now)) }
    ensures few { IfOk result (λ v. nat_le (length v.items) 30 ≡ true) }
    ensures rise { IfOk result (λ v. zooms_rise 0 v.items ≡ true) }
{
    let values = items(value, field, at)?;
    let rows = rows_of(alloc, at, values)?;
    tested_ages(alloc, rows.as_slice(), field, at)
}

/// The age limits of a layer, or none where the member is absent.
pub(crate) fn ages_or_none(
    alloc: Global,
    object: &Value,
    at: u32,
) -> Result<Vec<Age>, CatalogueFault>
    ensures gives { Gives (λ v. v.items) result (or [] ages Field.Ages at (get (codes "ages") (view object.now))) }
    ensures few { IfOk result (λ v. nat_le (length v.items) 30 ≡ true) }
    ensures rise { IfOk result (λ v. zooms_rise 0 v.items ≡ true) }
{
    match object.get("ages") {
        None => Ok(Vec::new(alloc)),
        Some(value) => ages(alloc, value, Field::Ages, at),
    }
}
