//! A composite that a message asks for, served to its outcome.
ghost use Rattle.std.specs.Prelude.{◌≡◌, ◌≤◌, IfOk, IsSome, Some, length, option_map, slice_get, true};
ghost use Rattle.cache_hall.specs.Turned.{IsPassOf};
ghost use Rattle.catalog.specs.Valid.{IsValid};
ghost use Rattle.composite_requests.specs.Routes.{IsOf};
ghost use Rattle.hall_sessions.specs.Composites.{ServesComposite, ServesComposition, outcome_of_composition};
ghost use Rattle.layer_recipes.specs.Books.{IsBookOf};
ghost use Rattle.layer_recipes.specs.OfCatalogue.{IsPlaceIn, IsRecipeOf};
ghost use Rattle.source_render.specs.Renders.{StaysGiven, renders};

use arrayvec::ArrayVec;
use cabinet::Keeper;
use cabinet_chest::CabinetChest;
use cache_hall::Hall;
use composite_hall::compose;
use composite_requests::CompositeRequest;
use exact_ratio::Words;
use layer_recipes::{ComposeFault, Composed, Recipe, RecipeBook, TilePlace};
use source_render::Source;
use std::alloc::Global;
use std::sync::Wait;
use tile_requests::{Outcome, Plain};
use turnstile::Pass;

/// The numbers of a composite, of which there are 8 at most.
fn numbers_of(numbers: &[u64]) -> ArrayVec<u64, 8>
    requires { length numbers.now ≤ 8 }
    ensures { result.items ≡ numbers.now }
{
    let mut few = ArrayVec::new();
    match few.try_extend_from_slice(numbers) {
        Ok(()) => few,
        Err(_) => unreachable!(),
    }
}

/// What a composition came to, as an outcome.
fn outcome_of_composition(composition: Result<Composed, ComposeFault>) -> Outcome
    requires { IfOk composition (λ composed. length composed.numbers.items ≤ 8) }
    ensures { result ≡ outcome_of_composition composition }
{
    match composition {
        Ok(Composed { numbers, bytes }) => Outcome::Composite(
            numbers_of(numbers.as_slice()),
            Words::of(bytes),
        ),
        Err(ComposeFault::SourceFault) => Outcome::SourceFailed,
        Err(ComposeFault::Spent) => Outcome::Plain(Plain::Spent),
        Err(ComposeFault::OutOfMemory) => Outcome::Plain(Plain::NoMemory),
    }
}

/// The composite of a recipe at a place of its grid, as an outcome.
fn serve_composition<R: Wait, K: Keeper, S: Source>(
    rt: &R,
    alloc: Global,
    hall: &Hall<K>,
    pass: &mut Pass<CabinetChest<K>>,
    source: &mut S,
    recipe: &Recipe,
    place: TilePlace,
) -> Outcome
    requires of { IsPassOf hall.now.turnstile.table hall.now.catalogue pass.old }
    requires valid { IsValid hall.now.catalogue }
    requires recipe { IsRecipeOf hall.now.catalogue recipe.now }
    requires grid { place.grid ≡ recipe.now.grid }
    requires place { IsPlaceIn hall.now.catalogue place }
    requires source { pass.old.told ≡ true → S.told source.old ≡ Some hall.now.catalogue.source }
    ensures serves { ServesComposition hall.now.catalogue place recipe.now.parts.items (renders (S.faults source.old) (S.gave source.old)) (renders (S.faults source.new) (S.gave source.new)) pass.old pass.new result }
    ensures of { IsPassOf hall.now.turnstile.table hall.now.catalogue pass.new }
    ensures later { S.faults source.old ≤ S.faults source.new }
    ensures told { S.told source.new ≡ S.told source.old }
    ensures grows { StaysGiven (S.gave source.old) (S.gave source.new) }
{
    let TilePlace { z, row, col, .. } = place;
    let composition = compose(rt, alloc, hall, pass, source, recipe, z, row, col);
    outcome_of_composition(composition)
}

/// The recipe of a number.
fn recipe_at(recipes: &RecipeBook, number: u32) -> &Recipe
    requires { IsSome (slice_get recipes.now.recipes.items number) }
    ensures { option_map (λ n. n.recipe) (slice_get recipes.now.recipes.items number) ≡ Some result.now }
{
    match recipes.recipes.get(number as usize) {
        Some(named) => &named.recipe,
        None => unreachable!(),
    }
}

/// What a message asks for below `/composites/`, served to its outcome: a composite by the turns of its composition, anything else by none.
pub fn serve_composite<R: Wait, K: Keeper, S: Source>(
    rt: &R,
    alloc: Global,
    hall: &Hall<K>,
    recipes: &RecipeBook,
    pass: &mut Pass<CabinetChest<K>>,
    source: &mut S,
    request: CompositeRequest,
) -> Outcome
    requires of { IsPassOf hall.now.turnstile.table hall.now.catalogue pass.old }
    requires valid { IsValid hall.now.catalogue }
    requires recipes { IsBookOf hall.now.catalogue recipes.now }
    requires asks { IsOf hall.now.catalogue recipes.now request }
    requires source { pass.old.told ≡ true → S.told source.old ≡ Some hall.now.catalogue.source }
    ensures serves { ServesComposite hall.now.catalogue recipes.now (renders (S.faults source.old) (S.gave source.old)) (renders (S.faults source.new) (S.gave source.new)) request pass.old pass.new result }
    ensures of { IsPassOf hall.now.turnstile.table hall.now.catalogue pass.new }
    ensures later { S.faults source.old ≤ S.faults source.new }
    ensures told { S.told source.new ≡ S.told source.old }
    ensures grows { StaysGiven (S.gave source.old) (S.gave source.new) }
{
    match request {
        CompositeRequest::Composite(number, place) => {
            let recipe = recipe_at(recipes, number);
            serve_composition(rt, alloc, hall, pass, source, recipe, place)
        }
        CompositeRequest::Refused(code, locator) => Outcome::Refused(code, locator),
        CompositeRequest::NotFound => Outcome::Plain(Plain::NotFound),
        CompositeRequest::WrongMethod => Outcome::Plain(Plain::WrongMethod),
    }
}
