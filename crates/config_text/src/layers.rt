//! The layers of the catalogue's text, read over its grids.
ghost use Rattle.std.specs.Prelude.{◌≡◌, ◌<◌, ◌≤◌, ◌^◌, ◌==◌, List, [], Ok, true, length, map, IfOk, IfSome, codes};
ghost use Rattle.catalog.specs.FirstFault.{each, are_factors, dimension_test, grid_number_test, layer_test, style_test};
ghost use Rattle.catalog.specs.Names.{within};
ghost use Rattle.config_text.specs.Layers.{grid_number, factors, layer_of, layers_of};
ghost use Rattle.config_text.specs.Member.{or};
ghost use Rattle.config_text.specs.Parts.{dims_in, layer_in, measures_in, numbers_in, styles_in};
ghost use Rattle.config_text.specs.Reading.{Gives, entries};
ghost use Rattle.serde_json.specs.Find.{get};
ghost use Rattle.serde_json.specs.View.{view};

use crate::ages::ages_or_none;
use crate::dimensions::dimensions_of;
use crate::measures::Measures;
use crate::member::{objects_or_none, required_objects, whole_if_any, whole_or};
use crate::name::{required_id, required_names};
use crate::shape::size;
use crate::styles::styles_of;
use catalog::{
    CatalogueFault, Dimension, Field, Grid, Layer, Style, are_factors, are_small, is_among,
    place_named, unless,
};
use exact_ratio::{Items, Words};
use matrix_geometry::Size;
use serde_json::Value;
use std::alloc::Global;

/// The number of the grid of a name, beside the numbers before it.
#[tactic(auto, unfolding(crate::specs::Layers::grid_number, catalog::specs::FirstFault::grid_number_test))]
fn grid_number(at: u32, grids: &[Grid], before: &[u32], name: &[u8]) -> Result<u32, CatalogueFault>
    requires { length grids.now ≤ 16 }
    ensures gives { Gives (λ n. n) result (grid_number at grids.now before.now name.now) }
    ensures met { IfOk result (λ n. grid_number_test at grids.now before.now n ≡ Ok tt) }
{
    let Some(number) = place_named(grids, name) else {
        return Err(CatalogueFault::Bad(Field::LayerGrids, at));
    };
    unless(
        !is_among(before, number),
        CatalogueFault::Duplicate(Field::LayerGrids, at),
    )?;
    Ok(number)
}

/// The numbers of the grids of these names.
fn numbers_of(
    alloc: Global,
    at: u32,
    grids: &[Grid],
    names: &[Words],
) -> Result<Vec<u32>, CatalogueFault>
    requires { length grids.now ≤ 16 }
    ensures gives { Gives (λ v. v.items) result (entries (grid_number at grids.now) [] names.now) }
    ensures met { IfOk result (λ v. each (grid_number_test at grids.now) [] v.items ≡ Ok tt) }
    ensures count { IfOk result (λ v. length v.items ≡ length names.now) }
{
    let mut numbers = Vec::new(alloc);
    for name in names {
        let number = grid_number(at, grids, numbers.as_slice(), name.bytes())?;
        numbers.push(number)?;
    }
    Ok(numbers)
}

/// The factors of a metatile.
#[tactic(auto, unfolding(crate::specs::Layers::factors))]
fn factors(value: &Value, field: Field, at: u32) -> Result<Size, CatalogueFault>
    ensures gives { Gives (λ s. s) result (factors field at (view value.now)) }
    ensures met { IfOk result (λ s. are_factors s.w s.h ≡ true) }
{
    let meta = size(value, field, at)?;
    unless(
        are_factors(meta.w, meta.h),
        CatalogueFault::Limit(field, at),
    )?;
    Ok(meta)
}

fn factors_or(object: &Value, at: u32) -> Result<Size, CatalogueFault>
    ensures gives { Gives (λ s. s) result (or (record { w = 4; h = 4 }) factors Field.Meta at (get (codes "meta") (view object.now))) }
    ensures met { IfOk result (λ s. are_factors s.w s.h ≡ true) }
{
    match object.get("meta") {
        None => Ok(Size { w: 4, h: 4 }),
        Some(value) => factors(value, Field::Meta, at),
    }
}

/// The numbers of the grids of a layer.
#[tactic(auto, unfolding(crate::specs::Parts::numbers_in))]
fn numbers_in(
    alloc: Global,
    at: u32,
    grids: &[Grid],
    object: &Value,
) -> Result<Vec<u32>, CatalogueFault>
    requires { length grids.now ≤ 16 }
    ensures gives { Gives (λ v. v.items) result (numbers_in at grids.now (view object.now)) }
    ensures met { IfOk result (λ v. each (grid_number_test at grids.now) [] v.items ≡ Ok tt) }
    ensures within { IfOk result (λ v. within 1 16 (length v.items) ≡ true) }
{
    let names = required_names(alloc, object, "grids", Field::LayerGrids, at, 1, 16)?;
    numbers_of(alloc, at, grids, names.as_slice())
}

/// The styles of a layer.
#[tactic(auto, unfolding(crate::specs::Parts::styles_in))]
fn styles_in(alloc: Global, at: u32, object: &Value) -> Result<Vec<Style>, CatalogueFault>
    ensures gives { Gives (λ v. v.items) result (styles_in at (view object.now)) }
    ensures met { IfOk result (λ v. each style_test [] v.items ≡ Ok tt) }
    ensures within { IfOk result (λ v. within 1 32 (length v.items) ≡ true) }
{
    let values = required_objects(object, "styles", Field::Styles, at, 1, 32)?;
    styles_of(alloc, values)
}

/// The dimensions of a layer.
#[tactic(auto, unfolding(crate::specs::Parts::dims_in))]
fn dims_in(alloc: Global, at: u32, object: &Value) -> Result<Vec<Dimension>, CatalogueFault>
    ensures gives { Gives (λ v. v.items) result (dims_in at (view object.now)) }
    ensures met { IfOk result (λ v. each dimension_test [] v.items ≡ Ok tt) }
    ensures within { IfOk result (λ v. within 0 4 (length v.items) ≡ true) }
{
    let values = objects_or_none(object, "dimensions", Field::Dimensions, at, 4)?;
    dimensions_of(alloc, values)
}

/// The numbers of a layer.
#[tactic(auto, unfolding(crate::specs::Parts::measures_in))]
fn measures_in(at: u32, object: &Value) -> Result<Measures, CatalogueFault>
    ensures gives { Gives (λ m. m) result (measures_in at (view object.now)) }
    ensures meta { IfOk result (λ m. are_factors m.meta.w m.meta.h ≡ true) }
    ensures gutter { IfOk result (λ m. within 0 64 m.gutter ≡ true) }
    ensures cell { IfOk result (λ m. within 1 1000000000 m.cell ≡ true) }
    ensures quota { IfOk result (λ m. IfSome m.quota (λ n. within 0 (2 ^ 50) n ≡ true)) }
{
    let meta = factors_or(object, at)?;
    let gutter = whole_or(object, "gutter", Field::Gutter, at, 0, 64, 0)? as u32;
    let cell = whole_or(object, "cell", Field::Cell, at, 1, 1_000_000_000, 1)?;
    let quota = whole_if_any(object, "quota", Field::LayerQuota, at, 1 << 50)?;
    Ok(Measures {
        meta,
        gutter,
        cell,
        quota,
    })
}

/// A layer over these grids, after the layers before it, by its parts.
#[tactic(auto, unfolding(crate::specs::Parts::layer_in))]
fn layer_in(
    alloc: Global,
    grids: &[Grid],
    before: &[Layer],
    object: &Value,
) -> Result<Layer, CatalogueFault>
    requires before { length before.now < 2 ^ 32 }
    requires grids { length grids.now ≤ 16 }
    ensures gives { Gives (λ l. l) result (layer_in grids.now before.now (view object.now)) }
    ensures met { IfOk result (λ l. layer_test grids.now before.now l ≡ Ok tt) }
{
    let at = before.len() as u32;
    let id = required_id(alloc, before, object, Field::LayerId, at)?;
    let numbers = numbers_in(alloc, at, grids, object)?;
    let styles = styles_in(alloc, at, object)?;
    let dims = dims_in(alloc, at, object)?;
    let measures = measures_in(at, object)?;
    let meta = measures.meta;
    let gutter = measures.gutter;
    let ages = ages_or_none(alloc, object, at)?;
    unless(
        are_small(grids, numbers.as_slice(), meta.w, meta.h, gutter),
        CatalogueFault::Limit(Field::Meta, at),
    )?;
    Ok(Layer {
        id,
        grids: Items::of(numbers),
        styles: Items::of(styles),
        dims: Items::of(dims),
        meta_x: meta.w,
        meta_y: meta.h,
        gutter,
        cell: measures.cell,
        quota: measures.quota,
        ages: Items::of(ages),
    })
}

/// A layer over these grids, after the layers before it.
fn layer_of(
    alloc: Global,
    grids: &[Grid],
    before: &[Layer],
    object: &Value,
) -> Result<Layer, CatalogueFault>
    requires before { length before.now < 2 ^ 32 }
    requires grids { length grids.now ≤ 16 }
    ensures gives { Gives (λ l. l) result (layer_of grids.now before.now (view object.now)) }
    ensures met { IfOk result (λ l. layer_test grids.now before.now l ≡ Ok tt) }
{
    layer_in(alloc, grids, before, object)
}

fn each_layer(alloc: Global, grids: &[Grid], values: &[Value]) -> Result<Vec<Layer>, CatalogueFault>
    requires values { length values.now ≤ 64 }
    requires grids { length grids.now ≤ 16 }
    ensures gives { Gives (λ v. v.items) result (entries (layer_of grids.now) [] (map view values.now)) }
    ensures met { IfOk result (λ v. each (layer_test grids.now) [] v.items ≡ Ok tt) }
    ensures count { IfOk result (λ v. length v.items ≡ length values.now) }
{
    let mut layers = Vec::new(alloc);
    for value in values {
        let layer = layer_of(alloc, grids, layers.as_slice(), value)?;
        layers.push(layer)?;
    }
    Ok(layers)
}

/// The layers of the outermost object over these grids.
#[tactic(auto, unfolding(crate::specs::Layers::layers_of))]
pub(crate) fn layers_of(
    alloc: Global,
    grids: &[Grid],
    object: &Value,
) -> Result<Vec<Layer>, CatalogueFault>
    requires { length grids.now ≤ 16 }
    ensures gives { Gives (λ v. v.items) result (layers_of grids.now (view object.now)) }
    ensures met { IfOk result (λ v. each (layer_test grids.now) [] v.items ≡ Ok tt) }
    ensures within { IfOk result (λ v. within 1 64 (length v.items) ≡ true) }
{
    let values = required_objects(object, "layers", Field::Layers, 0, 1, 64)?;
    each_layer(alloc, grids, values)
}
