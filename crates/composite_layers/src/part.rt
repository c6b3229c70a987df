//! One part: its tile is got, and laid under those before it.
ghost use Rattle.std.specs.Prelude.{IfErr, MatchResult, Some, ◌≡◌, ◌≤◌};
ghost use Rattle.base.specs.Causes.{Rose};
ghost use Rattle.cache_access.specs.Turned.{Goes};
ghost use Rattle.catalog.specs.Valid.{IsValid};
ghost use Rattle.composite_layers.specs.OverAccess.{GetsAt, IsLaid, Stops, moment_of};
ghost use Rattle.layer_recipes.specs.OfCatalogue.{IsPartOf, IsPlaceIn, tile_at};
ghost use Rattle.source_render.specs.Renders.{StaysGiven, renders};

use cache_access::{Access, GetFault, get};
use cache_core::Tile;
use layer_recipes::{ComposeFault, Overlay, Part, TilePlace};
use source_render::Source;
use std::alloc::Global;

/// Gets the tile of a part.
fn get_part<A: Access, S: Source>(
    access: &A,
    alloc: Global,
    cache: &mut A::Cache,
    source: &mut S,
    place: &TilePlace,
    part: &Part,
) -> Result<Tile, GetFault>
    requires reaches { A.reaches access.now cache.old }
    requires rests { A.rests access.now cache.old }
    requires valid { IsValid (A.catalogue access.now cache.old) }
    requires part { IsPartOf (A.catalogue access.now cache.old) place.now.grid part.now }
    requires place { IsPlaceIn (A.catalogue access.now cache.old) place.now }
    requires source { A.owes access.now cache.old → S.told source.old ≡ Some (A.catalogue access.now cache.old).source }
    ensures gets { GetsAt (A.gains access.now) (A.sound access.now) (A.seen access.now) (S.told source.old) (A.catalogue access.now cache.old) (tile_at place.now part.now) (moment_of cache.old (renders (S.faults source.old) (S.gave source.old))) (moment_of cache.new (renders (S.faults source.new) (S.gave source.new))) result }
    ensures goes { Goes (A.catalogue access.now) (A.reaches access.now) (A.owes access.now) (A.lasts access.now) cache.old cache.new }
    ensures still { S.told source.old ≡ Some (A.catalogue access.now cache.old).source → A.sound access.now cache.old → A.sound access.now cache.new }
    ensures rests { A.rests access.now cache.new }
    ensures later { S.faults source.old ≤ S.faults source.new }
    ensures cause { IfErr result (λ e. e ≡ GetFault.SourceFault → Rose (S.faults source.old) (S.faults source.new)) }
    ensures told { S.told source.new ≡ S.told source.old }
    ensures grows { StaysGiven (S.gave source.old) (S.gave source.new) }
{
    get(access, alloc, cache, source, &place.tile(part))
}

/// Gets the tile of a part, and lays it under those before it. Its text isn't kept.
pub(crate) fn lay_part<A: Access, S: Source>(
    access: &A,
    alloc: Global,
    cache: &mut A::Cache,
    source: &mut S,
    place: &TilePlace,
    part: &Part,
    overlay: &mut Overlay,
    numbers: &mut Vec<u64>,
) -> Result<(), ComposeFault>
    requires reaches { A.reaches access.now cache.old }
    requires rests { A.rests access.now cache.old }
    requires valid { IsValid (A.catalogue access.now cache.old) }
    requires part { IsPartOf (A.catalogue access.now cache.old) place.now.grid part.now }
    requires place { IsPlaceIn (A.catalogue access.now cache.old) place.now }
    requires source { A.owes access.now cache.old → S.told source.old ≡ Some (A.catalogue access.now cache.old).source }
    ensures lays { MatchResult result
        (λ _. IsLaid (GetsAt (A.gains access.now) (A.sound access.now) (A.seen access.now) (S.told source.old) (A.catalogue access.now cache.old)) place.now (moment_of cache.old (renders (S.faults source.old) (S.gave source.old))) part.now overlay.old overlay.new numbers.old.items numbers.new.items (moment_of cache.new (renders (S.faults source.new) (S.gave source.new))))
        (λ stop. Stops (GetsAt (A.gains access.now) (A.sound access.now) (A.seen access.now) (S.told source.old) (A.catalogue access.now cache.old)) place.now (moment_of cache.old (renders (S.faults source.old) (S.gave source.old))) part.now stop (moment_of cache.new (renders (S.faults source.new) (S.gave source.new)))) }
    ensures goes { Goes (A.catalogue access.now) (A.reaches access.now) (A.owes access.now) (A.lasts access.now) cache.old cache.new }
    ensures still { S.told source.old ≡ Some (A.catalogue access.now cache.old).source → A.sound access.now cache.old → A.sound access.now cache.new }
    ensures rests { A.rests access.now cache.new }
    ensures later { S.faults source.old ≤ S.faults source.new }
    ensures cause { IfErr result (λ e. e ≡ ComposeFault.SourceFault → Rose (S.faults source.old) (S.faults source.new)) }
    ensures told { S.told source.new ≡ S.told source.old }
    ensures grows { StaysGiven (S.gave source.old) (S.gave source.new) }
{
    match get_part(access, alloc, cache, source, place, part) {
        Ok(tile) => {
            overlay.lay(part.key, tile.bytes.bytes());
            match numbers.push(tile.number) {
                Ok(()) => Ok(()),
                Err(_) => Err(ComposeFault::OutOfMemory),
            }
        }
        Err(GetFault::SourceFault) => Err(ComposeFault::SourceFault),
        Err(GetFault::Spent) => Err(ComposeFault::Spent),
        Err(GetFault::OutOfMemory) => Err(ComposeFault::OutOfMemory),
    }
}
