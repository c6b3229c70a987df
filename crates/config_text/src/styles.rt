//! The styles of a layer, with their breaks.
ghost use Rattle.std.specs.List.{list_all};
ghost use Rattle.std.specs.Prelude.{◌≡◌, ◌≤◌, ◌<◌, ◌^◌, ◌&&◌, ◌∷◌, List, [], Ok, length, map, nat_le, true, IfOk, codes};
ghost use Rattle.catalog.specs.FirstFault.{each, unless, rise_from_zero, style_test};
ghost use Rattle.config_text.specs.Layers.{four_of, row_of, is_byte_row, are_breaks, break_of, breaks_in, breaks, style_of};
ghost use Rattle.config_text.specs.Member.{required};
ghost use Rattle.config_text.specs.Reading.{Gives, entries};
ghost use Rattle.serde_json.specs.Find.{get};
ghost use Rattle.serde_json.specs.View.{view};

use crate::each::{Entry, each};
use crate::member::{items, number};
use crate::name::required_id;
use crate::row::Row;
use catalog::{Break, CatalogueFault, Field, Style, rise_from_zero, unless};
use exact_ratio::Items;
use serde_json::Value;
use std::alloc::{AllocError, Global};

/// A row of these four numbers: from, red, green and blue.
fn four_of(at: u32, from: &Value, r: &Value, g: &Value, b: &Value) -> Result<Row, CatalogueFault>
    ensures { Gives (λ row. row) result (four_of at (view from.now ∷ view r.now ∷ view g.now ∷ view b.now ∷ [])) }
{
    let from = number(from, Field::Breaks, at)?;
    let r = number(r, Field::Breaks, at)?;
    let g = number(g, Field::Breaks, at)?;
    let b = number(b, Field::Breaks, at)?;
    Ok(Row { from, r, g, b })
}

#[tactic(auto, unfolding(crate::specs::Layers::row_of))]
fn row_of(at: u32, value: &Value) -> Result<Row, CatalogueFault>
    ensures { Gives (λ r. r) result (row_of at (view value.now)) }
{
    let values = items(value, Field::Breaks, at)?;
    match values {
        [from, r, g, b] => four_of(at, from, r, g, b),
        _ => Err(CatalogueFault::Bad(Field::Breaks, at)),
    }
}

fn rows_of(alloc: Global, at: u32, values: &[Value]) -> Result<Vec<Row>, CatalogueFault>
    ensures { Gives (λ v. v.items) result (entries (λ before. row_of at) [] (map view values.now)) }
{
    let mut rows = Vec::new(alloc);
    for value in values {
        let row = row_of(at, value)?;
        rows.push(row)?;
    }
    Ok(rows)
}

fn is_byte_row(row: Row) -> bool
    ensures { result ≡ is_byte_row row }
{
    row.from <= 255 && row.r <= 255 && row.g <= 255 && row.b <= 255
}

fn all_bytes(rows: &[Row]) -> bool
    ensures { result ≡ list_all is_byte_row rows.now }
{
    rows.iter().all(|row| is_byte_row(*row))
}

fn are_breaks(rows: &[Row]) -> bool
    ensures { result ≡ are_breaks rows.now }
{
    rows.len() <= 256 && all_bytes(rows)
}

fn break_of(row: Row) -> Break
    ensures { result ≡ break_of row }
{
    Break {
        from: row.from.min(255) as u8,
        r: row.r.min(255) as u8,
        g: row.g.min(255) as u8,
        b: row.b.min(255) as u8,
    }
}

fn breaks_of(alloc: Global, rows: &[Row]) -> Result<Vec<Break>, AllocError>
    ensures { IfOk result (λ v. v.items ≡ map break_of rows.now) }
{
    rows.iter().map(|row| break_of(*row)).collect(alloc)
}

/// The breaks of rows, tested by their limits and their order.
#[tactic(auto, unfolding(crate::specs::Layers::breaks_in), using(crate::proofs::Breaks::few_breaks))]
fn tested_breaks(
    alloc: Global,
    rows: &[Row],
    field: Field,
    at: u32,
) -> Result<Vec<Break>, CatalogueFault>
    ensures gives { Gives (λ v. v.items) result (breaks_in rows.now field at) }
    ensures few { IfOk result (λ v. nat_le (length v.items) 256 ≡ true) }
    ensures rise { IfOk result (λ v. rise_from_zero v.items ≡ true) }
{
    unless(are_breaks(rows), CatalogueFault::Limit(field, at))?;
    let breaks = breaks_of(alloc, rows)?;
    unless(
        rise_from_zero(breaks.as_slice()),
        CatalogueFault::Bad(field, at),
    )?;
    Ok(breaks)
}

#[tactic(auto, unfolding(crate::specs::Layers::breaks))]
fn breaks(alloc: Global, value: &Value, field: Field, at: u32) -> Result<Vec<Break>, CatalogueFault>
    requires { field ≡ Field.Breaks }
    ensures gives { Gives (λ v. v.items) result (breaks field at (view value.now)) }
    ensures few { IfOk result (λ v. nat_le (length v.items) 256 ≡ true) }
    ensures rise { IfOk result (λ v. rise_from_zero v.items ≡ true) }
{
    let values = items(value, field, at)?;
    let rows = rows_of(alloc, at, values)?;
    tested_breaks(alloc, rows.as_slice(), field, at)
}

fn required_breaks(alloc: Global, object: &Value, at: u32) -> Result<Vec<Break>, CatalogueFault>
    ensures gives { Gives (λ v. v.items) result (required breaks Field.Breaks at (get (codes "breaks") (view object.now))) }
    ensures few { IfOk result (λ v. nat_le (length v.items) 256 ≡ true) }
    ensures rise { IfOk result (λ v. rise_from_zero v.items ≡ true) }
{
    match object.get("breaks") {
        None => Err(CatalogueFault::Missing(Field::Breaks, at)),
        Some(value) => breaks(alloc, value, Field::Breaks, at),
    }
}

/// A style, after the styles before it.
#[tactic(auto, unfolding(crate::specs::Layers::style_of, catalog::specs::FirstFault::style_test))]
fn style_of(alloc: Global, before: &[Style], object: &Value) -> Result<Style, CatalogueFault>
    requires { length before.now < 2 ^ 32 }
    ensures gives { Gives (λ s. s) result (style_of before.now (view object.now)) }
    ensures met { IfOk result (λ s. style_test before.now s ≡ Ok tt) }
{
    let at = before.len() as u32;
    let id = required_id(alloc, before, object, Field::StyleId, at)?;
    let breaks = required_breaks(alloc, object, at)?;
    Ok(Style {
        id,
        breaks: Items::of(breaks),
    })
}

impl Entry for Style {
    type Owner = ();

    ghost entry = { λ _ before d. style_of before d };

    ghost met = { λ before s. style_test before s };

    fn read(
        alloc: Global,
        _owner: &(),
        before: &[Style],
        value: &Value,
    ) -> Result<Style, CatalogueFault> {
        style_of(alloc, before, value)
    }
}

/// The styles of a layer.
pub(crate) fn styles_of(alloc: Global, values: &[Value]) -> Result<Vec<Style>, CatalogueFault>
    requires { length values.now ≤ 32 }
    ensures gives { Gives (λ v. v.items) result (entries style_of [] (map view values.now)) }
    ensures met { IfOk result (λ v. each style_test [] v.items ≡ Ok tt) }
    ensures count { IfOk result (λ v. length v.items ≡ length values.now) }
{
    each(alloc, &(), values)
}
