//! Metatiles that are kept anew over any access.
ghost use Rattle.std.specs.Prelude.{IfErr, Some, ◌≡◌, ◌≤◌};
ghost use Rattle.base.specs.Causes.{Rose};
ghost use Rattle.cache_access.specs.Refreshes.{Refreshes};
ghost use Rattle.cache_access.specs.Turned.{Goes};
ghost use Rattle.catalog.specs.Valid.{IsValid};
ghost use Rattle.raster_field.specs.Blocks.{IsMeta};
ghost use Rattle.source_render.specs.Renders.{StaysGiven};

use crate::access::Access;
use crate::fault::GetFault;
use crate::refreshed::Refreshed;
use crate::remaking::remake;
use crate::requesting::{Requested, request};
use metatile_plan::MetaKey;
use source_render::Source;
use std::alloc::Global;

/// Refreshes a metatile: it asks for its first tile, or with force for a render of it, until no render of it runs elsewhere; what is kept
/// stays, and what isn't is rendered and handed in, between two turns.
///
/// `SourceFault` only if the source's count of faults rose; `Spent` if no number of a render is left; `OutOfMemory` if memory runs out.
/// A ticket that was given is then abandoned.
pub fn refresh<A: Access, S: Source>(
    access: &A,
    alloc: Global,
    cache: &mut A::Cache,
    source: &mut S,
    meta: &MetaKey,
    is_forced: bool,
) -> Result<Refreshed, GetFault>
    requires reaches { A.reaches access.now cache.old }
    requires rests { A.rests access.now cache.old }
    requires valid { IsValid (A.catalogue access.now cache.old) }
    requires meta { IsMeta (A.catalogue access.now cache.old) meta.now }
    requires source { A.owes access.now cache.old → S.told source.old ≡ Some (A.catalogue access.now cache.old).source }
    ensures refreshes { Refreshes (A.gains access.now) (A.catalogue access.now cache.old) (S.gave source.new) (A.sound access.now cache.old × (S.told source.old ≡ Some (A.catalogue access.now cache.old).source)) meta.now is_forced (A.seen access.now cache.old) cache.old cache.new result }
    ensures goes { Goes (A.catalogue access.now) (A.reaches access.now) (A.owes access.now) (A.lasts access.now) cache.old cache.new }
    ensures still { S.told source.old ≡ Some (A.catalogue access.now cache.old).source → A.sound access.now cache.old → A.sound access.now cache.new }
    ensures rests { A.rests access.now cache.new }
    ensures later { S.faults source.old ≤ S.faults source.new }
    ensures cause { IfErr result (λ e. e ≡ GetFault.SourceFault → Rose (S.faults source.old) (S.faults source.new)) }
    ensures told { S.told source.new ≡ S.told source.old }
    ensures grows { StaysGiven (S.gave source.old) (S.gave source.new) }
{
    match request(access, alloc, cache, meta, is_forced) {
        Err(_) => Err(GetFault::OutOfMemory),
        Ok(Requested::Spent) => Err(GetFault::Spent),
        Ok(Requested::Kept(number)) => Ok(Refreshed::AlreadyKept(number)),
        Ok(Requested::Ticket(ticket)) => remake(access, alloc, cache, source, ticket),
    }
}
