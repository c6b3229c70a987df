//! How a get renders the tile of its ticket, between two turns.
ghost use Rattle.std.specs.Prelude.{IfErr, Some, ◌≡◌, ◌≤◌};
ghost use Rattle.base.specs.Causes.{Rose};
ghost use Rattle.cache_access.specs.Made.{Makes};
ghost use Rattle.cache_access.specs.Turned.{Goes};
ghost use Rattle.cache_core.specs.Fits.{IsTicketFor};
ghost use Rattle.catalog.specs.LookUp.{IsTile};
ghost use Rattle.catalog.specs.Valid.{IsValid};
ghost use Rattle.source_render.specs.Renders.{StaysGiven};

use crate::access::Access;
use crate::fault::GetFault;
use cache_core::{RenderFault, Sliced, Tile, paint};
use matrix_geometry::Address;
use metatile_locks::Ticket;
use raster_field::laws_of_metatiles;
use source_render::Source;
use std::alloc::Global;

/// Renders the metatile of a ticket, cuts out the tile, and hands the blob in; the ticket is given back if the source failed or memory
/// ran out.
pub(crate) fn make<A: Access, S: Source>(
    access: &A,
    alloc: Global,
    cache: &mut A::Cache,
    source: &mut S,
    address: &Address,
    ticket: Ticket,
) -> Result<Tile, GetFault>
    requires reaches { A.reaches access.now cache.old }
    requires holds { A.holds access.now cache.old ticket }
    requires valid { IsValid (A.catalogue access.now cache.old) }
    requires tile { IsTile (A.catalogue access.now cache.old) address.now }
    requires ticket { IsTicketFor (A.catalogue access.now cache.old) address.now ticket }
    requires source { A.owes access.now cache.old → S.told source.old ≡ Some (A.catalogue access.now cache.old).source }
    ensures makes { Makes (A.gains access.now) (A.catalogue access.now cache.old) (S.gave source.new) (S.told source.old ≡ Some (A.catalogue access.now cache.old).source) address.now ticket cache.old cache.new result }
    ensures goes { Goes (A.catalogue access.now) (A.reaches access.now) (A.owes access.now) (A.lasts access.now) cache.old cache.new }
    ensures still { S.told source.old ≡ Some (A.catalogue access.now cache.old).source → A.sound access.now cache.old → A.sound access.now cache.new }
    ensures rests { A.rests access.now cache.new }
    ensures later { S.faults source.old ≤ S.faults source.new }
    ensures cause { IfErr result (λ e. e ≡ GetFault.SourceFault → Rose (S.faults source.old) (S.faults source.new)) }
    ensures told { S.told source.new ≡ S.told source.old }
    ensures grows { StaysGiven (S.gave source.old) (S.gave source.new) }
{
    laws_of_metatiles();
    match paint(alloc, access.catalogue(cache), source, &ticket, address) {
        Ok(Sliced { blob, bytes }) => {
            let number = ticket.number();
            let _ = access.finish(cache, ticket, blob);
            Ok(Tile {
                hit: false,
                number,
                bytes,
            })
        }
        Err(RenderFault::Source) => {
            access.abandon(cache, ticket);
            Err(GetFault::SourceFault)
        }
        Err(RenderFault::Memory) => {
            access.abandon(cache, ticket);
            Err(GetFault::OutOfMemory)
        }
    }
}
