//! The reading of a whole cover.
ghost use Rattle.std.specs.Prelude.{◌≡◌, ◌<◌, ◌≤◌, ℕ, Some, IfOk, IfSome, IsSome, IsSomeAnd, length, slice_get};
ghost use Rattle.catalog.specs.LookUp.{dimension_at, matrix_in};
ghost use Rattle.catalog.specs.Valid.{IsValid};
ghost use Rattle.job_forms.specs.Cover.{cover_in, cover_of, filter_in, zooms_in};
ghost use Rattle.job_forms.specs.Outcome.{Gives};
ghost use Rattle.serde_json.specs.View.{view};
ghost use Rattle.served_covers.specs.OfCatalogue.{IsCoverOf};

use crate::bounds::box_if_any;
use crate::fault::{JobFault, JobField};
use crate::member::{
    format_if_any, matrices_of, required_grid, required_layer, required_zoom, style_if_any,
};
use crate::values::values_or_any;
use catalog::Catalogue;
use json_forms::object_in;
use matrix_geometry::Filter;
use serde_json::Value;
use std::alloc::Global;
use truncation_list::Cover;

// What a member gives, or else its fault: `?` less its conversion of the error, which each member's proof would pay for.
macro_rules! member {
    ($member:expr) => {
        match $member {
            Ok(given) => given,
            Err(fault) => return Err(fault),
        }
    };
}

/// The numbers of the first and the last matrix of an object's members.
#[tactic(auto, unfolding(crate::specs::Cover::zooms_in))]
fn zooms_in(catalogue: &Catalogue, grid: u32, object: &Value) -> Result<(u32, u32), JobFault>
    requires valid { IsValid catalogue.now }
    requires grid { grid < length catalogue.now.grids }
    ensures value { result ≡ zooms_in catalogue.now grid (view object.now) }
    ensures start { IfOk result (λ zooms. IsSome (matrix_in catalogue.now grid zooms.0)) }
    ensures stop { IfOk result (λ zooms. IsSome (matrix_in catalogue.now grid zooms.1)) }
    ensures order { IfOk result (λ zooms. zooms.0 ≤ zooms.1) }
{
    let matrices = matrices_of(catalogue, grid);
    let start = member!(required_zoom(object, "zoomStart", JobField::ZoomStart, 0, matrices));
    let stop = member!(required_zoom(object, "zoomStop", JobField::ZoomStop, start, matrices));
    Ok((start, stop))
}

/// The filter of an object's members.
#[tactic(auto, unfolding(crate::specs::Cover::filter_in))]
fn filter_in(catalogue: &Catalogue, layer: u32, object: &Value) -> Result<Filter, JobFault>
    requires valid { IsValid catalogue.now }
    requires layer { layer < length catalogue.now.layers }
    ensures value { result ≡ filter_in catalogue.now layer (view object.now) }
    ensures style { IfOk result (λ filter. IfSome filter.style (λ style. IsSomeAnd (slice_get catalogue.now.layers layer) (λ l. style < length l.styles))) }
    ensures values { IfOk result (λ filter. (dim number : ℕ) → slice_get filter.dims dim ≡ Some (Some number) → IsSomeAnd (dimension_at catalogue.now layer dim) (λ d. number < length d.values)) }
{
    member!(format_if_any(object));
    let style = member!(style_if_any(catalogue, layer, object));
    let dims = member!(values_or_any(catalogue, layer, object));
    Ok(Filter { style, dims })
}

/// The cover of an object's members.
#[tactic(auto, unfolding(crate::specs::Cover::cover_in))]
fn cover_in(catalogue: &Catalogue, object: &Value) -> Result<Cover, JobFault>
    requires { IsValid catalogue.now }
    ensures value { result ≡ cover_in catalogue.now (view object.now) }
    ensures of { IfOk result (IsCoverOf catalogue.now) }
    ensures zoom { IfOk result (λ cover. cover.z_start ≤ cover.z_stop) }
{
    let layer = member!(required_layer(catalogue, object));
    let grid = member!(required_grid(catalogue, layer, object));
    let (z_start, z_stop) = member!(zooms_in(catalogue, grid, object));
    let bounds = member!(box_if_any(object));
    let filter = member!(filter_in(catalogue, layer, object));
    Ok(Cover {
        layer,
        grid,
        z_start,
        z_stop,
        bounds,
        filter,
    })
}

/// The cover of a text, which is one JSON object (RFC 8259), or its first fault in the order of the members: `NotJson` where
/// the text isn't one object, `Missing` where a member that has to be there is absent, `Bad` where a member has another form
/// or names something that isn't there, `Limit` where a bound is above 10^8 units in size or finer than a billionth of a unit.
/// `OutOfMemory` where memory runs out.
#[tactic(auto, unfolding(crate::specs::Cover::cover_of))]
pub fn read_cover(alloc: Global, catalogue: &Catalogue, text: &[u8]) -> Result<Cover, JobFault>
    requires { IsValid catalogue.now }
    ensures gives { Gives (λ cover. cover) result (cover_of catalogue.now text.now) }
    ensures of { IfOk result (IsCoverOf catalogue.now) }
    ensures zoom { IfOk result (λ cover. cover.z_start ≤ cover.z_stop) }
{
    match object_in(alloc, text) {
        Ok(Some(object)) => cover_in(catalogue, &object),
        Ok(None) => Err(JobFault::NotJson),
        Err(_) => Err(JobFault::OutOfMemory),
    }
}
