//! The composition of all parts, over any access.
ghost use Rattle.std.specs.List.{AllByRecursion};
ghost use Rattle.std.specs.Prelude.{[], IfErr, MatchResult, Some, ◌≡◌, ◌≤◌};
ghost use Rattle.base.specs.Causes.{Rose};
ghost use Rattle.cache_access.specs.Turned.{Goes};
ghost use Rattle.catalog.specs.Valid.{IsValid};
ghost use Rattle.composite_layers.specs.OverAccess.{AreLaidSoFar, ComposesAt, GetsAt, HasStopped, moment_of};
ghost use Rattle.composite_layers.specs.Parts.{place_of};
ghost use Rattle.layer_recipes.specs.OfCatalogue.{IsPartOf, IsPlaceIn, IsRecipeOf};
ghost use Rattle.layer_recipes.specs.Overlaid.{Lays};
ghost use Rattle.source_render.specs.Renders.{StaysGiven, renders};

use crate::part::lay_part;
use cache_access::Access;
use layer_recipes::{ComposeFault, Composed, Overlay, Part, Recipe, TilePlace, laws_of_composites};
use source_render::Source;
use std::alloc::Global;

/// Gets the tiles of parts, from the top down, and lays each under those before it.
fn lay_parts<A: Access, S: Source>(
    access: &A,
    alloc: Global,
    cache: &mut A::Cache,
    source: &mut S,
    place: &TilePlace,
    parts: &[Part],
    overlay: &mut Overlay,
    numbers: &mut Vec<u64>,
) -> Result<(), ComposeFault>
    requires reaches { A.reaches access.now cache.old }
    requires rests { A.rests access.now cache.old }
    requires valid { IsValid (A.catalogue access.now cache.old) }
    requires parts { AllByRecursion (IsPartOf (A.catalogue access.now cache.old) place.now.grid) parts.now }
    requires place { IsPlaceIn (A.catalogue access.now cache.old) place.now }
    requires source { A.owes access.now cache.old → S.told source.old ≡ Some (A.catalogue access.now cache.old).source }
    requires none { Lays overlay.old [] }
    requires no_number { numbers.old.items ≡ [] }
    ensures lays { MatchResult result
        (λ _. AreLaidSoFar (GetsAt (A.gains access.now) (A.sound access.now) (A.seen access.now) (S.told source.old) (A.catalogue access.now cache.old)) place.now (moment_of cache.old (renders (S.faults source.old) (S.gave source.old))) parts.now overlay.old overlay.new numbers.new.items (moment_of cache.new (renders (S.faults source.new) (S.gave source.new))))
        (λ stop. HasStopped (GetsAt (A.gains access.now) (A.sound access.now) (A.seen access.now) (S.told source.old) (A.catalogue access.now cache.old)) place.now (moment_of cache.old (renders (S.faults source.old) (S.gave source.old))) parts.now stop (moment_of cache.new (renders (S.faults source.new) (S.gave source.new)))) }
    ensures goes { Goes (A.catalogue access.now) (A.reaches access.now) (A.owes access.now) (A.lasts access.now) cache.old cache.new }
    ensures still { S.told source.old ≡ Some (A.catalogue access.now cache.old).source → A.sound access.now cache.old → A.sound access.now cache.new }
    ensures rests { A.rests access.now cache.new }
    ensures later { S.faults source.old ≤ S.faults source.new }
    ensures cause { IfErr result (λ e. e ≡ ComposeFault.SourceFault → Rose (S.faults source.old) (S.faults source.new)) }
    ensures told { S.told source.new ≡ S.told source.old }
    ensures grows { StaysGiven (S.gave source.old) (S.gave source.new) }
{
    for part in parts {
        match lay_part(access, alloc, cache, source, place, part, overlay, numbers) {
            Ok(()) => {}
            Err(stop) => return Err(stop),
        }
    }
    Ok(())
}

/// The composite of a recipe at a place of its grid, over any access. The parts are got from the top down, each by a get of its own, and no
/// composite is kept: each call gets each part again, so that a truncation of any part covers the whole. While the parts are laid over each
/// other no turn is held.
///
/// The first fault ends it: `SourceFault` only if the source's count of faults rose, `Spent` if no number is left for a render,
/// `OutOfMemory` if memory runs out.
pub fn compose<A: Access, S: Source>(
    access: &A,
    alloc: Global,
    cache: &mut A::Cache,
    source: &mut S,
    recipe: &Recipe,
    z: u32,
    row: u32,
    col: u32,
) -> Result<Composed, ComposeFault>
    requires reaches { A.reaches access.now cache.old }
    requires rests { A.rests access.now cache.old }
    requires valid { IsValid (A.catalogue access.now cache.old) }
    requires recipe { IsRecipeOf (A.catalogue access.now cache.old) recipe.now }
    requires place { IsPlaceIn (A.catalogue access.now cache.old) (place_of recipe.now.grid z row col) }
    requires source { A.owes access.now cache.old → S.told source.old ≡ Some (A.catalogue access.now cache.old).source }
    ensures composes { ComposesAt (A.gains access.now) (A.sound access.now) (A.seen access.now) (S.told source.old) (A.catalogue access.now cache.old) (place_of recipe.now.grid z row col) (moment_of cache.old (renders (S.faults source.old) (S.gave source.old))) recipe.now.parts.items result (moment_of cache.new (renders (S.faults source.new) (S.gave source.new))) }
    ensures goes { Goes (A.catalogue access.now) (A.reaches access.now) (A.owes access.now) (A.lasts access.now) cache.old cache.new }
    ensures still { S.told source.old ≡ Some (A.catalogue access.now cache.old).source → A.sound access.now cache.old → A.sound access.now cache.new }
    ensures rests { A.rests access.now cache.new }
    ensures later { S.faults source.old ≤ S.faults source.new }
    ensures cause { IfErr result (λ e. e ≡ ComposeFault.SourceFault → Rose (S.faults source.old) (S.faults source.new)) }
    ensures told { S.told source.new ≡ S.told source.old }
    ensures grows { StaysGiven (S.gave source.old) (S.gave source.new) }
{
    laws_of_composites();
    let place = TilePlace {
        grid: recipe.grid,
        z,
        row,
        col,
    };
    let matrix = *access.catalogue(cache).matrix(recipe.grid, z);
    let mut overlay = match Overlay::new(alloc, &matrix) {
        Ok(overlay) => overlay,
        Err(_) => return Err(ComposeFault::OutOfMemory),
    };
    let mut numbers = match Vec::with_capacity(alloc, recipe.parts.len()) {
        Ok(numbers) => numbers,
        Err(_) => return Err(ComposeFault::OutOfMemory),
    };
    let parts = recipe.parts.as_slice();
    match lay_parts(
        access,
        alloc,
        cache,
        source,
        &place,
        parts,
        &mut overlay,
        &mut numbers,
    ) {
        Ok(()) => Ok(Composed {
            numbers,
            bytes: overlay.into_text(),
        }),
        Err(stop) => Err(stop),
    }
}
