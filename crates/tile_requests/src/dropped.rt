//! The text that tells which metatile an expiry dropped.
ghost use Rattle.std.specs.List.{join_with_byte};
ghost use Rattle.std.specs.Prelude.{◌≡◌, ◌++◌, IfOk, OnOk};
ghost use Rattle.tile_requests.specs.Texts.{comma_before, dropped_text, grid_id, layer_id, place_text, style_id, value_text, value_texts};

use crate::numbers::push_number;
use catalog::{Catalogue, Dimension};
use exact_ratio::Words;
use metatile_plan::MetaKey;
use std::alloc::{AllocError, Global};

/// The identifier of its layer.
fn layer_id<'a>(catalogue: &'a Catalogue, meta: &MetaKey) -> &'a [u8]
    ensures { result.now ≡ layer_id catalogue.now meta.now }
{
    match catalogue.layers.get(meta.theme.layer as usize) {
        Some(layer) => layer.id.bytes(),
        None => b"",
    }
}

/// The identifier of its style.
fn style_id<'a>(catalogue: &'a Catalogue, meta: &MetaKey) -> &'a [u8]
    ensures { result.now ≡ style_id catalogue.now meta.now }
{
    let Some(layer) = catalogue.layers.get(meta.theme.layer as usize) else {
        return b"";
    };
    match layer.styles.get(meta.theme.style as usize) {
        Some(style) => style.id.bytes(),
        None => b"",
    }
}

/// The identifier of its grid.
fn grid_id<'a>(catalogue: &'a Catalogue, meta: &MetaKey) -> &'a [u8]
    ensures { result.now ≡ grid_id catalogue.now meta.now }
{
    match catalogue.grids.get(meta.grid as usize) {
        Some(grid) => grid.id.bytes(),
        None => b"",
    }
}

/// Adds the value of a dimension, in quotation marks.
fn add_value(text: &mut Vec<u8>, dimension: &Dimension, number: u32) -> Result<(), AllocError>
    ensures { OnOk result (text.new.items ≡ text.old.items ++ value_text dimension.now number) }
{
    text.extend_from_slice(b"\"")?;
    if let Some(value) = dimension.values.get(number as usize) {
        text.extend_from_slice(value.bytes())?;
    }
    text.extend_from_slice(b"\"")?;
    Ok(())
}

/// Adds a value of this place, with a comma before each but the first.
fn add_next_value(
    text: &mut Vec<u8>,
    place: usize,
    dimension: &Dimension,
    number: u32,
) -> Result<(), AllocError>
    ensures { OnOk result (text.new.items ≡ text.old.items ++ comma_before place ++ value_text dimension.now number) }
{
    if place > 0 {
        text.extend_from_slice(b",")?;
    }
    add_value(text, dimension, number)
}

/// Adds the values of dimensions, each at its number.
fn add_values(
    text: &mut Vec<u8>,
    dimensions: &[Dimension],
    numbers: &[u32],
) -> Result<(), AllocError>
    ensures { OnOk result (text.new.items ≡ text.old.items ++ join_with_byte 44 (value_texts dimensions.now numbers.now)) }
{
    for (place, dimension) in dimensions.iter().enumerate() {
        let Some(number) = numbers.get(place) else {
            return Ok(());
        };
        add_next_value(text, place, dimension, *number)?;
    }
    Ok(())
}

/// Adds where a metatile lies in its grid, and the end of the text.
fn add_place(text: &mut Vec<u8>, meta: &MetaKey) -> Result<(), AllocError>
    ensures { OnOk result (text.new.items ≡ text.old.items ++ place_text meta.now) }
{
    text.extend_from_slice(b"\",\"z\":")?;
    push_number(text, u64::from(meta.z))?;
    text.extend_from_slice(b",\"row\":")?;
    push_number(text, u64::from(meta.row))?;
    text.extend_from_slice(b",\"col\":")?;
    push_number(text, u64::from(meta.col))?;
    text.extend_from_slice(b"}}\n")?;
    Ok(())
}

/// The metatile that was dropped. `AllocError` where memory runs out.
pub fn dropped_text(
    alloc: Global,
    catalogue: &Catalogue,
    meta: &MetaKey,
) -> Result<Words, AllocError>
    ensures { IfOk result (λ text. text ≡ dropped_text catalogue.now meta.now) }
{
    let mut text = Vec::from_slice(alloc, b"{\"dropped\":{\"layer\":\"")?;
    text.extend_from_slice(layer_id(catalogue, meta))?;
    text.extend_from_slice(b"\",\"style\":\"")?;
    text.extend_from_slice(style_id(catalogue, meta))?;
    text.extend_from_slice(b"\",\"dimensions\":[")?;
    add_values(
        &mut text,
        catalogue.dimensions_of(meta.theme.layer),
        &meta.theme.dims,
    )?;
    text.extend_from_slice(b"],\"grid\":\"")?;
    text.extend_from_slice(grid_id(catalogue, meta))?;
    add_place(&mut text, meta)?;
    Ok(Words::of(text))
}
