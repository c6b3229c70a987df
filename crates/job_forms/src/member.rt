//! The members of a cover that are a single name or number: layer, grid, matrices, format and style.
ghost use Rattle.std.specs.Prelude.{◌≡◌, ◌<◌, ◌≤◌, codes, Contains, IfOk, IfSome, IsSomeAnd, length, slice_get};
ghost use Rattle.catalog.specs.Valid.{IsValid};
ghost use Rattle.job_forms.specs.Members as forms;
ghost use Rattle.job_forms.specs.Members.{required, if_any, matrices_of};
ghost use Rattle.serde_json.specs.Find.{get};
ghost use Rattle.serde_json.specs.View.{view};

use crate::fault::{JobFault, JobField};
use catalog::Catalogue;
use serde_json::Value;

fn layer(catalogue: &Catalogue, value: &Value) -> Option<u32>
    requires { IsValid catalogue.now }
    ensures value { result ≡ forms.layer catalogue.now (view value.now) }
    ensures there { IfSome result (λ layer. layer < length catalogue.now.layers) }
{
    match value.as_str() {
        Some(name) => catalogue.layer_named(name.as_bytes()),
        None => None,
    }
}

/// The number of the layer that has to be named.
pub fn required_layer(catalogue: &Catalogue, object: &Value) -> Result<u32, JobFault>
    requires { IsValid catalogue.now }
    ensures value { result ≡ required (forms.layer catalogue.now) JobField.Layer (get (codes "layer") (view object.now)) }
    ensures there { IfOk result (λ layer. layer < length catalogue.now.layers) }
{
    match object.get("layer") {
        None => Err(JobFault::Missing(JobField::Layer)),
        Some(value) => layer(catalogue, value).ok_or(JobFault::Bad(JobField::Layer)),
    }
}

fn grid(catalogue: &Catalogue, layer: u32, value: &Value) -> Option<u32>
    requires { IsValid catalogue.now }
    ensures value { result ≡ forms.grid catalogue.now layer (view value.now) }
    ensures there { IfSome result (λ grid. grid < length catalogue.now.grids) }
    ensures served { IfSome result (λ grid. IsSomeAnd (slice_get catalogue.now.layers layer) (λ l. Contains l.grids grid)) }
{
    match value.as_str() {
        Some(name) => catalogue.served_grid_named(layer, name.as_bytes()),
        None => None,
    }
}

/// The number of the grid that has to be named, one of the layer's.
pub fn required_grid(catalogue: &Catalogue, layer: u32, object: &Value) -> Result<u32, JobFault>
    requires { IsValid catalogue.now }
    ensures value { result ≡ required (forms.grid catalogue.now layer) JobField.Grid (get (codes "grid") (view object.now)) }
    ensures there { IfOk result (λ grid. grid < length catalogue.now.grids) }
    ensures served { IfOk result (λ grid. IsSomeAnd (slice_get catalogue.now.layers layer) (λ l. Contains l.grids grid)) }
{
    match object.get("grid") {
        None => Err(JobFault::Missing(JobField::Grid)),
        Some(value) => grid(catalogue, layer, value).ok_or(JobFault::Bad(JobField::Grid)),
    }
}

/// How many matrices a grid has.
#[tactic(auto, using(catalog::proofs::Found::some_within))]
pub fn matrices_of(catalogue: &Catalogue, grid: u32) -> usize
    requires valid { IsValid catalogue.now }
    requires grid { grid < length catalogue.now.grids }
    ensures { result ≡ matrices_of catalogue.now grid }
{
    catalogue.grid(grid).matrices.len()
}

fn zoom(first: u32, matrices: usize, value: &Value) -> Option<u32>
    requires { matrices ≤ 30 }
    ensures value { result ≡ forms.zoom first matrices (view value.now) }
    ensures first { IfSome result (λ z. first ≤ z) }
    ensures there { IfSome result (λ z. z < matrices) }
{
    let n = value.as_u64()?;
    if u64::from(first) <= n && n < matrices as u64 {
        Some(n as u32)
    } else {
        None
    }
}

/// The number of a matrix that has to be given, from `first` on and below `matrices`.
pub fn required_zoom(
    object: &Value,
    name: &str,
    field: JobField,
    first: u32,
    matrices: usize,
) -> Result<u32, JobFault>
    requires { matrices ≤ 30 }
    ensures value { result ≡ required (forms.zoom first matrices) field (get name.now (view object.now)) }
    ensures first { IfOk result (λ z. first ≤ z) }
    ensures there { IfOk result (λ z. z < matrices) }
{
    match object.get(name) {
        None => Err(JobFault::Missing(field)),
        Some(value) => zoom(first, matrices, value).ok_or(JobFault::Bad(field)),
    }
}

fn format(value: &Value) -> Option<()>
    ensures { result ≡ forms.format (view value.now) }
{
    let text = value.as_str()?;
    if text == "image/x-portable-pixmap" {
        Some(())
    } else {
        None
    }
}

/// The format, which is the one of tiles where it is given.
pub fn format_if_any(object: &Value) -> Result<Option<()>, JobFault>
    ensures { result ≡ if_any forms.format JobField.Format (get (codes "format") (view object.now)) }
{
    match object.get("format") {
        None => Ok(None),
        Some(value) => match format(value) {
            Some(()) => Ok(Some(())),
            None => Err(JobFault::Bad(JobField::Format)),
        },
    }
}

fn style(catalogue: &Catalogue, layer: u32, value: &Value) -> Option<u32>
    requires valid { IsValid catalogue.now }
    requires layer { layer < length catalogue.now.layers }
    ensures value { result ≡ forms.style catalogue.now layer (view value.now) }
    ensures there { IfSome result (λ style. IsSomeAnd (slice_get catalogue.now.layers layer) (λ l. style < length l.styles)) }
{
    let name = value.as_str()?;
    catalogue.style_named(layer, name.as_bytes())
}

/// The number of the layer's style, where one is named.
pub fn style_if_any(
    catalogue: &Catalogue,
    layer: u32,
    object: &Value,
) -> Result<Option<u32>, JobFault>
    requires valid { IsValid catalogue.now }
    requires layer { layer < length catalogue.now.layers }
    ensures value { result ≡ if_any (forms.style catalogue.now layer) JobField.Style (get (codes "style") (view object.now)) }
    ensures there { IfOk result (λ style. IfSome style (λ style. IsSomeAnd (slice_get catalogue.now.layers layer) (λ l. style < length l.styles))) }
{
    match object.get("style") {
        None => Ok(None),
        Some(value) => match style(catalogue, layer, value) {
            Some(style) => Ok(Some(style)),
            None => Err(JobFault::Bad(JobField::Style)),
        },
    }
}
