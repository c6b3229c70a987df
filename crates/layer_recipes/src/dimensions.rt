//! The values of a layer's dimensions that a part names.
ghost use Rattle.std.specs.Prelude.{◌≡◌, ◌<◌, option_copied, option_map, IfOk, IfSome, IsSome, length};
ghost use Rattle.catalog.specs.LookUp.{HasValues, dimension_at, dimensions_of};
ghost use Rattle.catalog.specs.Valid.{IsDimension, IsValid};
ghost use Rattle.dimension_key.specs.Draft.{draft_of, drafted};
ghost use Rattle.layer_recipes.specs.Dimensions.{dimensions, formed, given, or_fault, theme_in};
ghost use Rattle.serde_json.specs.View.{view};

use crate::fault::{RecipeFault, RecipeField};
use crate::names::{are_values, name_of};
use catalog::{Catalogue, Dimension};
use dimension_key::{DimFault, ThemeDraft};
use matrix_geometry::Theme;
use serde_json::Value;

/// Tests the form of the whole member.
fn formed(dims: &[Dimension], part: u32, object: Option<&Value>) -> Result<(), RecipeFault>
    ensures { result ≡ formed dims.now part (option_map (λ v. view v.now) object.entry) }
{
    let Some(object) = object else {
        return Ok(());
    };
    let Some(members) = object.as_object() else {
        return Err(RecipeFault::Bad(RecipeField::Dimensions, part));
    };
    if are_values(dims, members) {
        Ok(())
    } else {
        Err(RecipeFault::Bad(RecipeField::Dimensions, part))
    }
}

/// The text that the member gives to a dimension.
fn text_given<'v>(object: Option<&'v Value>, dimension: &Dimension) -> Option<&'v [u8]>
    requires { IsDimension dimension.now }
    ensures { option_copied result ≡ given (option_map (λ v. view v.now) object.entry) dimension.now.id }
{
    match object?.get(name_of(dimension))?.as_str() {
        None => None,
        Some(text) => Some(text.as_bytes()),
    }
}

/// The draft with a value of the layer's next dimension.
fn with_value(
    mut draft: ThemeDraft,
    catalogue: &Catalogue,
    part: u32,
    value: Option<&[u8]>,
) -> Result<ThemeDraft, RecipeFault>
    requires valid { IsValid catalogue.now }
    requires more { IsSome (dimension_at catalogue.now draft.theme.layer draft.count) }
    ensures value { result ≡ or_fault part (drafted catalogue.now (option_copied value.entry) draft) }
    ensures values { IfOk result (λ next. HasValues catalogue.now draft.theme → HasValues catalogue.now next.theme) }
{
    match draft.add(catalogue, value) {
        Ok(()) => Ok(draft),
        Err(DimFault::Missing) => Err(RecipeFault::Missing(RecipeField::Dimensions, part)),
        Err(DimFault::Invalid) => Err(RecipeFault::Bad(RecipeField::Dimensions, part)),
    }
}

/// The draft of a layer and a style with the values that the member gives, in the catalogue's order.
#[tactic(auto, using(crate::proofs::Values::dimension_ends, crate::proofs::Values::dimensions_done))]
fn drafted(
    catalogue: &Catalogue,
    part: u32,
    layer: u32,
    style: u32,
    object: Option<&Value>,
) -> Result<ThemeDraft, RecipeFault>
    requires valid { IsValid catalogue.now }
    ensures value { result ≡ dimensions catalogue.now part (option_map (λ v. view v.now) object.entry) (dimensions_of catalogue.now layer) (draft_of layer style) }
    ensures layer { IfOk result (λ draft. draft.theme.layer ≡ layer) }
    ensures style { IfOk result (λ draft. draft.theme.style ≡ style) }
    ensures values { IfOk result (λ draft. HasValues catalogue.now draft.theme) }
{
    let mut draft = ThemeDraft::new(layer, style);
    for dimension in catalogue.dimensions_of(layer) {
        draft = with_value(draft, catalogue, part, text_given(object, dimension))?;
    }
    Ok(draft)
}

/// The theme of a layer and a style with the values that the member gives, or else the defaults.
#[tactic(auto, unfolding(crate::specs::Dimensions::theme_in))]
pub fn theme_in(
    catalogue: &Catalogue,
    part: u32,
    layer: u32,
    style: u32,
    object: Option<&Value>,
) -> Result<Theme, RecipeFault>
    requires valid { IsValid catalogue.now }
    ensures value { result ≡ theme_in catalogue.now part layer style (option_map (λ v. view v.now) object.entry) }
    ensures layer { IfOk result (λ theme. theme.layer ≡ layer) }
    ensures style { IfOk result (λ theme. theme.style ≡ style) }
    ensures values { IfOk result (HasValues catalogue.now) }
{
    formed(catalogue.dimensions_of(layer), part, object)?;
    let draft = drafted(catalogue, part, layer, style, object)?;
    Ok(draft.done())
}
