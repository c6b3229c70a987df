//! Tiles over any access.
ghost use Rattle.std.specs.Prelude.{IfErr, Some, ◌≡◌, ◌≤◌};
ghost use Rattle.base.specs.Causes.{Rose};
ghost use Rattle.cache_access.specs.Gets.{Gets};
ghost use Rattle.cache_access.specs.Turned.{Goes};
ghost use Rattle.catalog.specs.LookUp.{IsTile};
ghost use Rattle.catalog.specs.Valid.{IsValid};
ghost use Rattle.source_render.specs.Renders.{StaysGiven};

use crate::access::Access;
use crate::fault::GetFault;
use crate::making::make;
use cabinet::Asked;
use cabinet_chest::laws_of_numbers;
use cache_core::Tile;
use matrix_geometry::Address;
use source_render::Source;
use std::alloc::Global;

/// Gets a tile: it asks until no render of the tile's metatile runs elsewhere, and then takes the kept tile, or renders the metatile and
/// hands it in, between two turns.
///
/// `SourceFault` only if the source's count of faults rose; `Spent` if no number of a render is left; `OutOfMemory` if memory runs out.
/// A ticket that was given is then abandoned.
pub fn get<A: Access, S: Source>(
    access: &A,
    alloc: Global,
    cache: &mut A::Cache,
    source: &mut S,
    address: &Address,
) -> Result<Tile, GetFault>
    requires reaches { A.reaches access.now cache.old }
    requires rests { A.rests access.now cache.old }
    requires valid { IsValid (A.catalogue access.now cache.old) }
    requires tile { IsTile (A.catalogue access.now cache.old) address.now }
    requires source { A.owes access.now cache.old → S.told source.old ≡ Some (A.catalogue access.now cache.old).source }
    ensures gets { Gets (A.gains access.now) (A.catalogue access.now cache.old) (S.gave source.new) (A.sound access.now cache.old × (S.told source.old ≡ Some (A.catalogue access.now cache.old).source)) address.now (A.seen access.now cache.old) cache.old cache.new result }
    ensures goes { Goes (A.catalogue access.now) (A.reaches access.now) (A.owes access.now) (A.lasts access.now) cache.old cache.new }
    ensures still { S.told source.old ≡ Some (A.catalogue access.now cache.old).source → A.sound access.now cache.old → A.sound access.now cache.new }
    ensures rests { A.rests access.now cache.new }
    ensures later { S.faults source.old ≤ S.faults source.new }
    ensures cause { IfErr result (λ e. e ≡ GetFault.SourceFault → Rose (S.faults source.old) (S.faults source.new)) }
    ensures told { S.told source.new ≡ S.told source.old }
    ensures grows { StaysGiven (S.gave source.old) (S.gave source.new) }
{
    laws_of_numbers();
    match access.ask(alloc, cache, address) {
        Err(_) => Err(GetFault::OutOfMemory),
        Ok(Asked::Busy(_)) => unreachable!(),
        Ok(Asked::Spent) => Err(GetFault::Spent),
        Ok(Asked::Hit(number, bytes)) => Ok(Tile {
            hit: true,
            number,
            bytes,
        }),
        Ok(Asked::Ticket(ticket)) => make(access, alloc, cache, source, address, ticket),
    }
}
