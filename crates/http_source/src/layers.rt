//! The layers that have a template of their own.
ghost use Rattle.std.specs.Prelude.{◌≡◌, ◌≤◌, [], IfOk, codes, length, map};
ghost use Rattle.catalog.specs.Valid.{IsValid};
ghost use Rattle.http_source.specs.Forms.{is_taken, layer, layer_url, layers};
ghost use Rattle.http_source.specs.Members.{required};
ghost use Rattle.http_source.specs.Outcome.{Gives, entries};
ghost use Rattle.serde_json.specs.Find.{get};
ghost use Rattle.serde_json.specs.View.{view};

use crate::fault::{RendererFault, RendererField};
use crate::form::LayerUrl;
use crate::member::{objects_or_none, required_text, text};
use catalog::Catalogue;
use exact_ratio::{Items, Words};
use serde_json::Value;
use std::alloc::Global;

/// Whether one of the entries names this layer.
fn is_taken(before: &[LayerUrl], layer: u32) -> bool
    ensures { result ≡ is_taken before.now layer }
{
    for entry in before {
        if entry.layer == layer {
            return true;
        }
    }
    false
}

/// The number of the layer that a value names, which none of the entries before names.
#[tactic(auto, unfolding(crate::specs::Forms::layer))]
fn layer(
    catalogue: &Catalogue,
    before: &[LayerUrl],
    at: u32,
    value: &Value,
) -> Result<u32, RendererFault>
    requires { IsValid catalogue.now }
    ensures { Gives (λ n. n) result (layer catalogue.now before.now RendererField.Layer at (view value.now)) }
{
    let name = match text(value, RendererField::Layer, at) {
        Ok(name) => name,
        Err(fault) => return Err(fault),
    };
    let Some(number) = catalogue.layer_named(name) else {
        return Err(RendererFault::Bad(RendererField::Layer, at));
    };
    if is_taken(before, number) {
        return Err(RendererFault::Duplicate(RendererField::Layer, at));
    }
    Ok(number)
}

/// The number of the layer that has to be named.
fn required_layer(
    catalogue: &Catalogue,
    before: &[LayerUrl],
    at: u32,
    object: &Value,
) -> Result<u32, RendererFault>
    requires { IsValid catalogue.now }
    ensures { Gives (λ n. n) result (required (layer catalogue.now before.now) RendererField.Layer at (get (codes "layer") (view object.now))) }
{
    match object.get("layer") {
        None => Err(RendererFault::Missing(RendererField::Layer, at)),
        Some(value) => layer(catalogue, before, at, value),
    }
}

/// An entry after those before it.
#[tactic(auto, unfolding(crate::specs::Forms::layer_url))]
fn layer_url(
    alloc: Global,
    catalogue: &Catalogue,
    before: &[LayerUrl],
    object: &Value,
) -> Result<LayerUrl, RendererFault>
    requires valid { IsValid catalogue.now }
    requires few { length before.now ≤ 64 }
    ensures { Gives (λ l. l) result (layer_url catalogue.now before.now (view object.now)) }
{
    let at = before.len() as u32;
    let layer = required_layer(catalogue, before, at, object)?;
    let url = required_text(object, "url", RendererField::LayerUrl, at)?;
    Ok(LayerUrl {
        layer,
        url: Words::new(alloc, url)?,
    })
}

/// The entries of objects, one after the other.
fn each_layer(
    alloc: Global,
    catalogue: &Catalogue,
    objects: &[Value],
) -> Result<Vec<LayerUrl>, RendererFault>
    requires valid { IsValid catalogue.now }
    requires few { length objects.now ≤ 64 }
    ensures gives { Gives (λ v. v.items) result (entries (layer_url catalogue.now) [] (map view objects.now)) }
    ensures count { IfOk result (λ v. length v.items ≡ length objects.now) }
{
    let mut entries = Vec::new(alloc);
    for object in objects {
        let entry = layer_url(alloc, catalogue, entries.as_slice(), object)?;
        entries.push(entry)?;
    }
    Ok(entries)
}

/// The entries of the outermost object, or none where the member is absent.
#[tactic(auto, unfolding(crate::specs::Forms::layers))]
pub(crate) fn layers(
    alloc: Global,
    catalogue: &Catalogue,
    object: &Value,
) -> Result<Items<LayerUrl>, RendererFault>
    requires { IsValid catalogue.now }
    ensures gives { Gives (λ v. v) result (layers catalogue.now (view object.now)) }
    ensures few { IfOk result (λ v. length v ≤ 64) }
{
    let objects = objects_or_none(object, "layers", RendererField::Layers)?;
    let entries = each_layer(alloc, catalogue, objects)?;
    Ok(Items::of(entries))
}
