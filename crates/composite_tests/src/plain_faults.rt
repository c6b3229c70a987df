//! A source that fails at a part, in a cabinet in which no render runs elsewhere.
ghost use Rattle.catalog.specs.Valid.{IsValid};
ghost use Rattle.composite_layers.specs.Parts.{place_of};
ghost use Rattle.composite_tests.specs.Ready.{IsReady};
ghost use Rattle.layer_recipes.specs.OfCatalogue.{IsPlaceIn};
ghost use Rattle.tile_service.specs.Session.{IsAtRest};

use crate::rows::{Outcome, demo_over_wood, has_failed, has_first, has_numbers};
use crate::stand::empty;
use cabinet::Cabinet;
use composite_layers::compose_plain;
use layer_recipes::{ComposeFault, Composed, Recipe};
use source_render::Scripted;
use std::alloc::Global;
use std::test::Fail;

/// Makes the composite at zoom 0, where there is one.
fn composed_at(
    alloc: Global,
    cabinet: &mut Cabinet,
    source: &mut Scripted,
    recipe: &Recipe,
) -> Result<Composed, ComposeFault>
    requires ready { IsReady cabinet.old recipe.now }
    requires place { IsPlaceIn cabinet.old.catalogue (place_of recipe.now.grid 0 0 0) }
    ensures { IsReady cabinet.new recipe.now }
{
    compose_plain(alloc, cabinet, source, recipe, 0, 0, 0)
}

/// Makes the composite at zoom 0.
fn composed(alloc: Global, cabinet: &mut Cabinet, source: &mut Scripted, recipe: &Recipe) -> Outcome
    requires { IsReady cabinet.old recipe.now }
    ensures { IsReady cabinet.new recipe.now }
{
    if !has_first(cabinet.catalogue(), recipe) {
        return None;
    }
    Some(composed_at(alloc, cabinet, source, recipe))
}

/// Whether the fault of the source's call ends the composite, so many metatiles are then kept, and the next composite has these numbers.
fn ends_with_a_fault(
    alloc: Global,
    cabinet: Cabinet,
    source: Scripted,
    kept: u32,
    numbers: [u64; 2],
) -> bool
    requires valid { IsValid cabinet.catalogue }
    requires rest { IsAtRest cabinet }
{
    let mut cabinet = cabinet;
    let mut source = source;
    let Some(recipe) = demo_over_wood(alloc, cabinet.catalogue()) else {
        return false;
    };
    let first = composed(alloc, &mut cabinet, &mut source, &recipe);
    let count = cabinet.kept();
    let next = composed(alloc, &mut cabinet, &mut source, &recipe);
    drop((cabinet, source, recipe));
    has_failed(&first) && count == kept && has_numbers(&next, numbers)
}

/// No number is given to the lower part where the upper one fails.
#[test]
fn a_fault_of_the_upper_part_leaves_nothing(rt: HostRuntime) -> Result<(), Fail> {
    let fails = vec![in rt.alloc(); 1]?;
    let Some(cabinet) = empty(rt.alloc())? else {
        return Err(Fail::from("a text is refused"));
    };
    assert!(rt; ends_with_a_fault(rt.alloc(), cabinet, Scripted::new(0, fails), 0, [2, 3]));
    Ok(())
}

#[test]
fn a_fault_of_the_lower_part_leaves_the_upper_one(rt: HostRuntime) -> Result<(), Fail> {
    let fails = vec![in rt.alloc(); 2]?;
    let Some(cabinet) = empty(rt.alloc())? else {
        return Err(Fail::from("a text is refused"));
    };
    assert!(rt; ends_with_a_fault(rt.alloc(), cabinet, Scripted::new(0, fails), 1, [1, 3]));
    Ok(())
}
