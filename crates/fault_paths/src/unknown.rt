//! The members that nobody knows, as paths.
ghost use Rattle.std.specs.Prelude.{◌≡◌, ◌++◌, IfOk, OnOk, codes, map};
ghost use Rattle.fault_paths.specs.Unknown.{by_place, grid_lines, layer_lines, list_lines, name_line, names_lines, own_lines, unknown_in, unknown_lines};
ghost use Rattle.serde_json.specs.View.{members_view, view};

use crate::fields::Owner;
use crate::known::is_known;
use crate::lines::add_path;
use json_forms::{object_in, values_of};
use serde_json::{Map, Value};
use std::alloc::{AllocError, Global};

/// Adds the line of a member that nobody knows.
fn add_name(
    text: &mut Vec<u8>,
    owner: Owner,
    outer: u64,
    place: u64,
    name: &[u8],
) -> Result<(), AllocError>
    ensures { OnOk result (text.new.items ≡ text.old.items ++ name_line owner outer place name.now) }
{
    if is_known(owner, name) {
        return Ok(());
    }
    add_path(text, owner, outer, place)?;
    text.extend_from_slice(b".")?;
    text.extend_from_slice(name)?;
    text.extend_from_slice(b"\n")
}

/// Adds those of the members of an object.
fn add_names(
    text: &mut Vec<u8>,
    owner: Owner,
    outer: u64,
    place: u64,
    members: &Map<String, Value>,
) -> Result<(), AllocError>
    ensures { OnOk result (text.new.items ≡ text.old.items ++ names_lines owner outer place (members_view members.now.entries)) }
{
    for (name, _) in members {
        add_name(text, owner, outer, place, name.as_bytes())?;
    }
    Ok(())
}

/// Adds those of an object.
fn add_own(
    text: &mut Vec<u8>,
    owner: Owner,
    outer: u64,
    place: u64,
    object: &Value,
) -> Result<(), AllocError>
    ensures { OnOk result (text.new.items ≡ text.old.items ++ own_lines owner outer place (view object.now)) }
{
    match object.as_object() {
        Some(members) => add_names(text, owner, outer, place, members),
        None => Ok(()),
    }
}

/// Adds those of objects in the list of another one.
fn add_inner(
    text: &mut Vec<u8>,
    owner: Owner,
    outer: u64,
    objects: &[Value],
) -> Result<(), AllocError>
    ensures { OnOk result (text.new.items ≡ text.old.items ++ by_place (own_lines owner outer) 0 (map view objects.now)) }
{
    for (place, object) in objects.iter().enumerate() {
        add_own(text, owner, outer, place as u64, object)?;
    }
    Ok(())
}

/// Adds those of such a list.
fn add_list(
    text: &mut Vec<u8>,
    owner: Owner,
    outer: u64,
    list: &str,
    object: &Value,
) -> Result<(), AllocError>
    ensures { OnOk result (text.new.items ≡ text.old.items ++ list_lines (own_lines owner outer) list.now (view object.now)) }
{
    let Some(value) = object.get(list) else {
        return Ok(());
    };
    match values_of(value) {
        Some(objects) => add_inner(text, owner, outer, objects),
        None => Ok(()),
    }
}

/// Adds those of a grid and of its matrices.
fn add_grid(text: &mut Vec<u8>, place: u64, grid: &Value) -> Result<(), AllocError>
    ensures { OnOk result (text.new.items ≡ text.old.items ++ grid_lines place (view grid.now)) }
{
    add_own(text, Owner::Grid, 0, place, grid)?;
    add_list(text, Owner::Matrix, place, "matrices", grid)
}

/// Adds those of a layer, of its styles and of its dimensions.
fn add_layer(text: &mut Vec<u8>, place: u64, layer: &Value) -> Result<(), AllocError>
    ensures { OnOk result (text.new.items ≡ text.old.items ++ layer_lines place (view layer.now)) }
{
    add_own(text, Owner::Layer, 0, place, layer)?;
    add_list(text, Owner::Style, place, "styles", layer)?;
    add_list(text, Owner::Dimension, place, "dimensions", layer)
}

/// Adds those of grids.
fn add_each_grid(text: &mut Vec<u8>, grids: &[Value]) -> Result<(), AllocError>
    ensures { OnOk result (text.new.items ≡ text.old.items ++ by_place grid_lines 0 (map view grids.now)) }
{
    for (place, grid) in grids.iter().enumerate() {
        add_grid(text, place as u64, grid)?;
    }
    Ok(())
}

/// Adds those of layers.
fn add_each_layer(text: &mut Vec<u8>, layers: &[Value]) -> Result<(), AllocError>
    ensures { OnOk result (text.new.items ≡ text.old.items ++ by_place layer_lines 0 (map view layers.now)) }
{
    for (place, layer) in layers.iter().enumerate() {
        add_layer(text, place as u64, layer)?;
    }
    Ok(())
}

/// Adds those of the grids of a catalogue.
fn add_grids(text: &mut Vec<u8>, whole: &Value) -> Result<(), AllocError>
    ensures { OnOk result (text.new.items ≡ text.old.items ++ list_lines grid_lines (codes "grids") (view whole.now)) }
{
    let Some(value) = whole.get("grids") else {
        return Ok(());
    };
    match values_of(value) {
        Some(grids) => add_each_grid(text, grids),
        None => Ok(()),
    }
}

/// Adds those of the layers of a catalogue.
fn add_layers(text: &mut Vec<u8>, whole: &Value) -> Result<(), AllocError>
    ensures { OnOk result (text.new.items ≡ text.old.items ++ list_lines layer_lines (codes "layers") (view whole.now)) }
{
    let Some(value) = whole.get("layers") else {
        return Ok(());
    };
    match values_of(value) {
        Some(layers) => add_each_layer(text, layers),
        None => Ok(()),
    }
}

/// Those of a catalogue's value.
fn unknown_of(alloc: Global, whole: &Value) -> Result<Vec<u8>, AllocError>
    ensures { IfOk result (λ lines. lines.items ≡ unknown_lines (view whole.now)) }
{
    let mut text = Vec::new(alloc);
    add_own(&mut text, Owner::Outermost, 0, 0, whole)?;
    add_grids(&mut text, whole)?;
    add_layers(&mut text, whole)?;
    Ok(text)
}

/// The path of each member of a catalogue's text that nobody knows, as `$.layers[1].guter`, each with a line feed behind it; a text that isn't
/// one JSON object has none. `AllocError` where memory runs out.
pub fn unknown_members(alloc: Global, text: &[u8]) -> Result<Vec<u8>, AllocError>
    ensures { IfOk result (λ lines. lines.items ≡ unknown_in text.now) }
{
    match object_in(alloc, text) {
        Ok(Some(whole)) => unknown_of(alloc, &whole),
        Ok(None) => Ok(Vec::new(alloc)),
        Err(_) => Err(AllocError),
    }
}
