//! A hall over an empty cabinet in memory, two passes of it, and a recipe.
ghost use Rattle.std.specs.Prelude.{IfOk, IfSome};
ghost use Rattle.catalog.specs.Valid.{IsValid};
ghost use Rattle.composite_tests.specs.Fit.{IsFit};
ghost use Rattle.layer_recipes.specs.OfCatalogue.{IsRecipeOf};
ghost use Rattle.tile_service.specs.Session.{IsAtRest};

use crate::rows::{demo_over_wood, rows_catalogue};
use base::Clock;
use cabinet::Cabinet;
use cabinet_chest::CabinetChest;
use cache_hall::{Hall, HallEntry};
use layer_recipes::Recipe;
use std::alloc::{AllocError, Global};
use turnstile::Pass;

/// A hall and two passes of it.
#[derive(Drop)]
pub struct Pair {
    pub hall: Hall<Cabinet>,
    pub a: Pass<CabinetChest<Cabinet>>,
    pub b: Pass<CabinetChest<Cabinet>>,
}

/// A hall, two passes of it, and a recipe of its catalogue.
#[derive(Drop)]
pub struct Stand {
    pub pair: Pair,
    pub recipe: Recipe,
}

/// A hall over a cabinet.
fn pair_of(alloc: Global, cabinet: Cabinet) -> Result<Option<Pair>, AllocError>
    requires valid { IsValid cabinet.catalogue }
    ensures { IfOk result (λ o. IfSome o (λ t. IsFit t.hall.turnstile t.hall.catalogue t.a × IsFit t.hall.turnstile t.hall.catalogue t.b)) }
{
    let HallEntry { hall, passes } = Hall::make(alloc, cabinet, 2)?;
    let mut passes = passes.into_vec();
    let Some(a) = passes.pop() else {
        return Ok(None);
    };
    let Some(b) = passes.pop() else {
        return Ok(None);
    };
    Ok(Some(Pair { hall, a, b }))
}

/// The same with the recipe.
fn stand_of(alloc: Global, pair: Pair) -> Option<Stand>
    requires a { IsFit pair.hall.turnstile pair.hall.catalogue pair.a }
    requires b { IsFit pair.hall.turnstile pair.hall.catalogue pair.b }
    ensures a { IfSome result (λ s. IsFit s.pair.hall.turnstile s.pair.hall.catalogue s.pair.a) }
    ensures b { IfSome result (λ s. IsFit s.pair.hall.turnstile s.pair.hall.catalogue s.pair.b) }
    ensures recipe { IfSome result (λ s. IsRecipeOf s.pair.hall.catalogue s.recipe) }
{
    match demo_over_wood(alloc, &pair.hall.catalogue) {
        Some(recipe) => Some(Stand { pair, recipe }),
        None => {
            drop(pair);
            None
        }
    }
}

/// An empty cabinet of the catalogue; none where its text is refused.
pub fn empty(alloc: Global) -> Result<Option<Cabinet>, AllocError>
    ensures valid { IfOk result (λ o. IfSome o (λ c. IsValid c.catalogue)) }
    ensures rest { IfOk result (λ o. IfSome o (λ c. IsAtRest c)) }
{
    match rows_catalogue(alloc) {
        None => Ok(None),
        Some(catalogue) => match Cabinet::memory(alloc, catalogue, Clock::listed(Vec::new(alloc))) {
            Ok(cabinet) => Ok(Some(cabinet)),
            Err(fault) => Err(fault),
        },
    }
}

/// A hall over an empty cabinet, two passes, and the recipe; none where a text is refused.
pub fn new_stand(alloc: Global) -> Result<Option<Stand>, AllocError>
    ensures a { IfOk result (λ o. IfSome o (λ s. IsFit s.pair.hall.turnstile s.pair.hall.catalogue s.pair.a)) }
    ensures b { IfOk result (λ o. IfSome o (λ s. IsFit s.pair.hall.turnstile s.pair.hall.catalogue s.pair.b)) }
    ensures recipe { IfOk result (λ o. IfSome o (λ s. IsRecipeOf s.pair.hall.catalogue s.recipe)) }
{
    let Some(cabinet) = empty(alloc)? else {
        return Ok(None);
    };
    let Some(pair) = pair_of(alloc, cabinet)? else {
        return Ok(None);
    };
    Ok(stand_of(alloc, pair))
}
