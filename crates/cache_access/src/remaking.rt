//! How a refresh renders the metatile of its ticket, between two turns.
ghost use Rattle.std.specs.Prelude.{IfErr, Some, ◌≡◌, ◌≤◌};
ghost use Rattle.base.specs.Causes.{Rose};
ghost use Rattle.cache_access.specs.Made.{Remakes};
ghost use Rattle.cache_access.specs.Turned.{Goes};
ghost use Rattle.catalog.specs.Valid.{IsValid};
ghost use Rattle.raster_field.specs.Blocks.{IsMeta};
ghost use Rattle.source_render.specs.Renders.{StaysGiven};

use crate::access::Access;
use crate::fault::GetFault;
use crate::refreshed::Refreshed;
use cabinet::Finished;
use cache_core::{RenderFault, blob_of};
use metatile_locks::Ticket;
use source_render::Source;
use std::alloc::Global;

/// Renders the metatile of a ticket, and hands the blob in; the ticket is given back if the source failed or memory ran out.
pub(crate) fn remake<A: Access, S: Source>(
    access: &A,
    alloc: Global,
    cache: &mut A::Cache,
    source: &mut S,
    ticket: Ticket,
) -> Result<Refreshed, GetFault>
    requires reaches { A.reaches access.now cache.old }
    requires holds { A.holds access.now cache.old ticket }
    requires valid { IsValid (A.catalogue access.now cache.old) }
    requires meta { IsMeta (A.catalogue access.now cache.old) ticket.meta }
    requires source { A.owes access.now cache.old → S.told source.old ≡ Some (A.catalogue access.now cache.old).source }
    ensures makes { Remakes (A.gains access.now) (A.catalogue access.now cache.old) (S.gave source.new) (S.told source.old ≡ Some (A.catalogue access.now cache.old).source) ticket cache.old cache.new result }
    ensures goes { Goes (A.catalogue access.now) (A.reaches access.now) (A.owes access.now) (A.lasts access.now) cache.old cache.new }
    ensures still { S.told source.old ≡ Some (A.catalogue access.now cache.old).source → A.sound access.now cache.old → A.sound access.now cache.new }
    ensures rests { A.rests access.now cache.new }
    ensures later { S.faults source.old ≤ S.faults source.new }
    ensures cause { IfErr result (λ e. e ≡ GetFault.SourceFault → Rose (S.faults source.old) (S.faults source.new)) }
    ensures told { S.told source.new ≡ S.told source.old }
    ensures grows { StaysGiven (S.gave source.old) (S.gave source.new) }
{
    match blob_of(alloc, access.catalogue(cache), source, &ticket) {
        Ok(blob) => {
            let number = ticket.number();
            match access.finish(cache, ticket, blob) {
                Finished::Kept => Ok(Refreshed::Made(number)),
                Finished::Stranger => Ok(Refreshed::Unkept(number)),
                Finished::Overtaken(_) => Ok(Refreshed::Unkept(number)),
                Finished::Full => Ok(Refreshed::Unkept(number)),
                Finished::NoRoom => Ok(Refreshed::Unkept(number)),
                Finished::DiskFault(_, _) => Ok(Refreshed::Unkept(number)),
            }
        }
        Err(RenderFault::Source) => {
            access.abandon(cache, ticket);
            Err(GetFault::SourceFault)
        }
        Err(RenderFault::Memory) => {
            access.abandon(cache, ticket);
            Err(GetFault::OutOfMemory)
        }
    }
}
