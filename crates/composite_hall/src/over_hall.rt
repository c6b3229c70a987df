//! The composition of all parts, over a hall.
ghost use Rattle.std.specs.Prelude.{IfErr, Some, true, ◌≡◌, ◌≤◌};
ghost use Rattle.base.specs.Causes.{Rose};
ghost use Rattle.cache_hall.specs.Turned.{IsPassOf};
ghost use Rattle.catalog.specs.Valid.{IsValid};
ghost use Rattle.composite_hall.specs.OverHall.{ComposesOver};
ghost use Rattle.composite_layers.specs.Parts.{place_of};
ghost use Rattle.layer_recipes.specs.OfCatalogue.{IsPlaceIn, IsRecipeOf};
ghost use Rattle.source_render.specs.Renders.{StaysGiven};

use cabinet::Keeper;
use cabinet_chest::CabinetChest;
use cache_hall::{Hall, Shared};
use layer_recipes::{ComposeFault, Composed, Recipe};
use source_render::Source;
use std::alloc::Global;
use std::sync::Wait;
use turnstile::Pass;

/// The composite of a recipe at a place of its grid, over a hall. The parts are got from the top down, each by a get of its own, and no
/// composite is kept: each call gets each part again, so that a truncation of any part covers the whole. Between two parts other passes may
/// have their turns; while the parts are laid over each other no turn is held.
///
/// The first fault ends it: `SourceFault` only where the source's count of faults rose, `Spent` where no number is left for a render,
/// `OutOfMemory` where memory runs out.
pub fn compose<R: Wait, K: Keeper, S: Source>(
    rt: &R,
    alloc: Global,
    hall: &Hall<K>,
    pass: &mut Pass<CabinetChest<K>>,
    source: &mut S,
    recipe: &Recipe,
    z: u32,
    row: u32,
    col: u32,
) -> Result<Composed, ComposeFault>
    requires of { IsPassOf hall.now.turnstile.table hall.now.catalogue pass.old }
    requires valid { IsValid hall.now.catalogue }
    requires recipe { IsRecipeOf hall.now.catalogue recipe.now }
    requires place { IsPlaceIn hall.now.catalogue (place_of recipe.now.grid z row col) }
    requires source { pass.old.told ≡ true → S.told source.old ≡ Some hall.now.catalogue.source }
    ensures composes { ComposesOver hall.now.catalogue (S.gave source.new) (place_of recipe.now.grid z row col) pass.old recipe.now.parts.items result pass.new }
    ensures of { IsPassOf hall.now.turnstile.table hall.now.catalogue pass.new }
    ensures later { S.faults source.old ≤ S.faults source.new }
    ensures cause { IfErr result (λ e. e ≡ ComposeFault.SourceFault → Rose (S.faults source.old) (S.faults source.new)) }
    ensures told { S.told source.new ≡ S.told source.old }
    ensures grows { StaysGiven (S.gave source.old) (S.gave source.new) }
{
    let way = Shared { rt, hall };
    composite_layers::compose(&way, alloc, pass, source, recipe, z, row, col)
}
