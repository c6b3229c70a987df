//! The parts of a recipe.
ghost use Rattle.std.specs.List.{AllByRecursion};
ghost use Rattle.std.specs.Prelude.{◌≡◌, ◌<◌, ◌≤◌, [], codes, Contains, IfOk, IsSome, IsSomeAnd, length, map, option_map};
ghost use Rattle.catalog.specs.LookUp.{HasValues, layer_of, style_of};
ghost use Rattle.catalog.specs.Valid.{IsValid};
ghost use Rattle.layer_recipes.specs.OfCatalogue.{IsPartOf};
ghost use Rattle.layer_recipes.specs.Outcome.{Gives, entries};
ghost use Rattle.layer_recipes.specs.Recipes.{part_in};
ghost use Rattle.serde_json.specs.Find.{get};
ghost use Rattle.serde_json.specs.View.{view};

use crate::dimensions::theme_in;
use crate::fault::RecipeFault;
use crate::member::{required_key, required_layer, required_style};
use crate::recipe::Part;
use catalog::Catalogue;
use serde_json::Value;
use std::alloc::Global;

/// A part on a grid, the `number`th of the recipe.
#[tactic(auto, unfolding(crate::specs::Recipes::part_in))]
fn part_in(
    catalogue: &Catalogue,
    grid: u32,
    number: u32,
    object: &Value,
) -> Result<Part, RecipeFault>
    requires { IsValid catalogue.now }
    ensures value { result ≡ part_in catalogue.now grid number (view object.now) }
    ensures of { IfOk result (IsPartOf catalogue.now grid) }
{
    let layer = required_layer(catalogue, grid, number, object)?;
    let style = required_style(catalogue, layer, number, object)?;
    let theme = theme_in(catalogue, number, layer, style, object.get("dimensions"))?;
    let key = required_key(number, object)?;
    Ok(Part { theme, key })
}

/// The part after those before it.
fn part_after(
    catalogue: &Catalogue,
    grid: u32,
    before: &[Part],
    object: &Value,
) -> Result<Part, RecipeFault>
    requires valid { IsValid catalogue.now }
    requires few { length before.now ≤ 8 }
    ensures value { result ≡ part_in catalogue.now grid (length before.now) (view object.now) }
    ensures of { IfOk result (IsPartOf catalogue.now grid) }
{
    part_in(catalogue, grid, before.len() as u32, object)
}

/// The parts on a grid, from the top down.
pub fn each_part(
    alloc: Global,
    catalogue: &Catalogue,
    grid: u32,
    objects: &[Value],
) -> Result<Vec<Part>, RecipeFault>
    requires valid { IsValid catalogue.now }
    requires few { length objects.now ≤ 8 }
    ensures gives { Gives (λ parts. parts.items) result (entries (λ before. part_in catalogue.now grid (length before)) [] (map view objects.now)) }
    ensures of { IfOk result (λ parts. AllByRecursion (IsPartOf catalogue.now grid) parts.items) }
    ensures count { IfOk result (λ parts. length parts.items ≡ length objects.now) }
{
    let mut parts = Vec::with_capacity(alloc, objects.len())?;
    for object in objects {
        let part = part_after(catalogue, grid, parts.as_slice(), object)?;
        parts.push(part)?;
    }
    Ok(parts)
}
