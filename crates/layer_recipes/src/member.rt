//! The members of a recipe that are a name, a colour or a list.
ghost use Rattle.std.specs.List.{list_all};
ghost use Rattle.std.specs.Prelude.{◌≡◌, ◌<◌, ◌≤◌, codes, true, option_and_then, Contains, IfOk, IfSome, IsSomeAnd, length, map, slice_get};
ghost use Rattle.catalog.specs.LookUp.{layer_named};
ghost use Rattle.catalog.specs.Valid.{IsValid};
ghost use Rattle.json_forms.specs.Forms.{values_of};
ghost use Rattle.layer_recipes.specs.Members as forms;
ghost use Rattle.layer_recipes.specs.Members.{byte_of, colour_of, is_few, is_object, required};
ghost use Rattle.layer_recipes.specs.Outcome.{Gives};
ghost use Rattle.serde_json.specs.Find.{as_str, get};
ghost use Rattle.serde_json.specs.View.{view};

use crate::fault::{RecipeFault, RecipeField};
use catalog::Catalogue;
use json_forms::values_of;
use raster_field::Colour;
use serde_json::Value;

fn grid(catalogue: &Catalogue, value: &Value) -> Option<u32>
    requires { IsValid catalogue.now }
    ensures { result ≡ forms.grid catalogue.now (view value.now) }
{
    match value.as_str() {
        Some(name) => catalogue.grid_named(name.as_bytes()),
        None => None,
    }
}

/// The number of the grid that has to be named.
pub fn required_grid(catalogue: &Catalogue, object: &Value) -> Result<u32, RecipeFault>
    requires { IsValid catalogue.now }
    ensures { result ≡ required (forms.grid catalogue.now) RecipeField.Grid 0 (get (codes "grid") (view object.now)) }
{
    match object.get("grid") {
        None => Err(RecipeFault::Missing(RecipeField::Grid, 0)),
        Some(value) => grid(catalogue, value).ok_or(RecipeFault::Bad(RecipeField::Grid, 0)),
    }
}

fn layer_named(catalogue: &Catalogue, value: &Value) -> Option<u32>
    requires { IsValid catalogue.now }
    ensures { result ≡ option_and_then (layer_named catalogue.now) (as_str (view value.now)) }
{
    match value.as_str() {
        Some(name) => catalogue.layer_named(name.as_bytes()),
        None => None,
    }
}

fn if_serving(catalogue: &Catalogue, grid: u32, layer: u32) -> Option<u32>
    ensures value { result ≡ forms.if_serving catalogue.now grid layer }
    ensures served { IfSome result (λ number. IsSomeAnd (slice_get catalogue.now.layers number) (λ l. Contains l.grids grid)) }
    ensures there { IfSome result (λ number. number < length catalogue.now.layers) }
{
    let found = catalogue.layers.get(layer as usize)?;
    if found.serves(grid) {
        Some(layer)
    } else {
        None
    }
}

fn layer(catalogue: &Catalogue, grid: u32, value: &Value) -> Option<u32>
    requires { IsValid catalogue.now }
    ensures value { result ≡ forms.layer catalogue.now grid (view value.now) }
    ensures served { IfSome result (λ number. IsSomeAnd (slice_get catalogue.now.layers number) (λ l. Contains l.grids grid)) }
    ensures there { IfSome result (λ number. number < length catalogue.now.layers) }
{
    match layer_named(catalogue, value) {
        Some(layer) => if_serving(catalogue, grid, layer),
        None => None,
    }
}

/// The number of the layer that has to be named, which has to serve the grid.
pub fn required_layer(
    catalogue: &Catalogue,
    grid: u32,
    part: u32,
    object: &Value,
) -> Result<u32, RecipeFault>
    requires { IsValid catalogue.now }
    ensures value { result ≡ required (forms.layer catalogue.now grid) RecipeField.Layer part (get (codes "layer") (view object.now)) }
    ensures served { IfOk result (λ number. IsSomeAnd (slice_get catalogue.now.layers number) (λ l. Contains l.grids grid)) }
    ensures there { IfOk result (λ number. number < length catalogue.now.layers) }
{
    match object.get("layer") {
        None => Err(RecipeFault::Missing(RecipeField::Layer, part)),
        Some(value) => {
            layer(catalogue, grid, value).ok_or(RecipeFault::Bad(RecipeField::Layer, part))
        }
    }
}

fn style(catalogue: &Catalogue, layer: u32, value: &Value) -> Option<u32>
    requires valid { IsValid catalogue.now }
    requires layer { layer < length catalogue.now.layers }
    ensures value { result ≡ forms.style catalogue.now layer (view value.now) }
    ensures there { IfSome result (λ style. IsSomeAnd (slice_get catalogue.now.layers layer) (λ l. style < length l.styles)) }
{
    let name = value.as_str()?;
    catalogue.style_named(layer, name.as_bytes())
}

/// The number of the layer's style that has to be named.
pub fn required_style(
    catalogue: &Catalogue,
    layer: u32,
    part: u32,
    object: &Value,
) -> Result<u32, RecipeFault>
    requires valid { IsValid catalogue.now }
    requires layer { layer < length catalogue.now.layers }
    ensures value { result ≡ required (forms.style catalogue.now layer) RecipeField.Style part (get (codes "style") (view object.now)) }
    ensures there { IfOk result (λ style. IsSomeAnd (slice_get catalogue.now.layers layer) (λ l. style < length l.styles)) }
{
    match object.get("style") {
        None => Err(RecipeFault::Missing(RecipeField::Style, part)),
        Some(value) => {
            style(catalogue, layer, value).ok_or(RecipeFault::Bad(RecipeField::Style, part))
        }
    }
}

fn byte_of(value: &Value) -> Option<u8>
    ensures { result ≡ byte_of (view value.now) }
{
    let number = value.as_u64()?;
    if number <= 255 {
        Some(number as u8)
    } else {
        None
    }
}

fn colour_of(r: &Value, g: &Value, b: &Value) -> Option<Colour>
    ensures { result ≡ colour_of (byte_of (view r.now)) (byte_of (view g.now)) (byte_of (view b.now)) }
{
    let r = byte_of(r)?;
    let g = byte_of(g)?;
    let b = byte_of(b)?;
    Some(Colour { r, g, b })
}

fn key(value: &Value) -> Option<Colour>
    ensures { result ≡ forms.key (view value.now) }
{
    match values_of(value)? {
        [r, g, b] => colour_of(r, g, b),
        _ => None,
    }
}

/// The key of a part, which has to be there.
pub fn required_key(part: u32, object: &Value) -> Result<Colour, RecipeFault>
    ensures { result ≡ required forms.key RecipeField.Key part (get (codes "key") (view object.now)) }
{
    match object.get("key") {
        None => Err(RecipeFault::Missing(RecipeField::Key, part)),
        Some(value) => key(value).ok_or(RecipeFault::Bad(RecipeField::Key, part)),
    }
}

fn are_objects(values: &[Value]) -> bool
    ensures { result ≡ list_all is_object (map view values.now) }
{
    for value in values {
        if !value.is_object() {
            return false;
        }
    }
    true
}

fn is_few(count: usize) -> bool
    ensures value { result ≡ is_few count }
    ensures least { result ≡ true → 1 ≤ count }
    ensures most { result ≡ true → count ≤ 8 }
{
    1 <= count && count <= 8
}

fn required_list(object: &Value) -> Result<&[Value], RecipeFault>
    ensures { Gives (λ values. map view values.now) result (required values_of RecipeField.Parts 0 (get (codes "parts") (view object.now))) }
{
    match object.get("parts") {
        None => Err(RecipeFault::Missing(RecipeField::Parts, 0)),
        Some(value) => match values_of(value) {
            None => Err(RecipeFault::Bad(RecipeField::Parts, 0)),
            Some(values) => Ok(values),
        },
    }
}

/// The objects of the parts, which have to be there.
pub fn required_parts(object: &Value) -> Result<&[Value], RecipeFault>
    ensures gives { Gives (λ values. map view values.now) result (forms.parts (get (codes "parts") (view object.now))) }
    ensures some { IfOk result (λ values. 1 ≤ length values.now) }
    ensures few { IfOk result (λ values. length values.now ≤ 8) }
{
    let values = match required_list(object) {
        Ok(values) => values,
        Err(fault) => return Err(fault),
    };
    if !is_few(values.len()) {
        return Err(RecipeFault::Limit(RecipeField::Parts, 0));
    }
    if !are_objects(values) {
        return Err(RecipeFault::Bad(RecipeField::Parts, 0));
    }
    Ok(values)
}
