//! The composition in a cabinet that one thread has for itself.
ghost use Rattle.std.specs.Prelude.{◌≡◌};
ghost use Rattle.cache_core.specs.Lasting.{Lasting};
ghost use Rattle.catalog.specs.Valid.{IsValid};
ghost use Rattle.composite_layers.specs.Composes.{Composes};
ghost use Rattle.composite_layers.specs.Parts.{moment, place_of};
ghost use Rattle.layer_recipes.specs.OfCatalogue.{IsPlaceIn, IsRecipeOf};
ghost use Rattle.tile_service.specs.Session.{IsAtRest};

use crate::over_access::compose;
use cabinet::Keeper;
use cache_access::Alone;
use layer_recipes::{ComposeFault, Composed, Recipe};
use source_render::Source;
use std::alloc::Global;
use tile_requests::laws_of_lone_threads;

/// The composite of a recipe at a place of its grid, in a cabinet in which no render runs. The parts are asked for from the top down, and
/// no composite is kept: each call asks for each part again, so that a truncation of any part covers the whole.
///
/// The first fault ends it: `SourceFault` where the source failed, which it does only where its count of faults rose, `Spent` where no
/// number is left for a render, `OutOfMemory` where memory runs out.
pub fn compose_plain<C: Keeper, S: Source>(
    alloc: Global,
    cabinet: &mut C,
    source: &mut S,
    recipe: &Recipe,
    z: u32,
    row: u32,
    col: u32,
) -> Result<Composed, ComposeFault>
    requires valid { IsValid (C.state cabinet.old).catalogue }
    requires recipe { IsRecipeOf (C.state cabinet.old).catalogue recipe.now }
    requires place { IsPlaceIn (C.state cabinet.old).catalogue (place_of recipe.now.grid z row col) }
    requires rest { IsAtRest (C.state cabinet.old) }
    ensures composes { Composes (S.told source.old) (place_of recipe.now.grid z row col) (moment (C.state cabinet.old) (S.faults source.old) (C.faults cabinet.old)) recipe.now.parts.items result (moment (C.state cabinet.new) (S.faults source.new) (C.faults cabinet.new)) }
    ensures told { S.told source.new ≡ S.told source.old }
    ensures lasts { Lasting (C.outlasts cabinet.old cabinet.new) (C.state cabinet.old) (C.state cabinet.new) }
{
    laws_of_lone_threads();
    let way = Alone::new();
    compose(&way, alloc, cabinet, source, recipe, z, row, col)
}
