//! Single calls on a hall.
ghost use Rattle.composite_tests.specs.Fit.{IsFit};
ghost use Rattle.layer_recipes.specs.OfCatalogue.{IsRecipeOf};

use crate::rows::{Outcome, has_first, zoom_0_of};
use cabinet::{CutReply, Keeper};
use cabinet_chest::CabinetChest;
use cache_access::Access;
use cache_hall::{Hall, Shared};
use composite_hall::compose;
use layer_recipes::Recipe;
use served_covers::is_cover_of;
use source_render::Source;
use std::alloc::Global;
use std::sync::Wait;
use turnstile::Pass;

/// Makes the composite at zoom 0.
pub fn composed<R: Wait, K: Keeper, S: Source>(
    rt: &R,
    alloc: Global,
    hall: &Hall<K>,
    pass: &mut Pass<CabinetChest<K>>,
    source: &mut S,
    recipe: &Recipe,
) -> Outcome
    requires fit { IsFit hall.now.turnstile hall.now.catalogue pass.old }
    requires recipe { IsRecipeOf hall.now.catalogue recipe.now }
    ensures { IsFit hall.now.turnstile hall.now.catalogue pass.new }
{
    if !has_first(&hall.catalogue, recipe) {
        return None;
    }
    Some(compose(rt, alloc, hall, pass, source, recipe, 0, 0, 0))
}

/// Truncates a layer at zoom 0, and tells the truncation's number.
pub fn cut<R: Wait, K: Keeper>(
    rt: &R,
    alloc: Global,
    hall: &Hall<K>,
    pass: &mut Pass<CabinetChest<K>>,
    layer: u32,
) -> Option<u64>
    requires fit { IsFit hall.now.turnstile hall.now.catalogue pass.old }
    ensures { IsFit hall.now.turnstile hall.now.catalogue pass.new }
{
    let cover = zoom_0_of(layer);
    if !is_cover_of(&hall.catalogue, &cover) {
        return None;
    }
    let access = Shared { rt, hall };
    match access.cut(alloc, pass, &cover) {
        Ok(CutReply::Done(number)) => Some(number),
        _ => None,
    }
}

/// How many metatiles of a layer are kept; none where there is no such layer.
pub fn kept<R: Wait, K: Keeper>(
    rt: &R,
    hall: &Hall<K>,
    pass: &mut Pass<CabinetChest<K>>,
    layer: u32,
) -> Option<u32>
    requires fit { IsFit hall.now.turnstile hall.now.catalogue pass.old }
    ensures { IsFit hall.now.turnstile hall.now.catalogue pass.new }
{
    if layer as usize >= hall.catalogue.layers.len() {
        return None;
    }
    let access = Shared { rt, hall };
    Some(access.usage(pass, layer).metatiles)
}
