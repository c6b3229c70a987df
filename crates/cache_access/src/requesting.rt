//! How a refresh asks for its metatile.
ghost use Rattle.std.specs.Prelude.{Bool, ◌≡◌};
ghost use Rattle.cache_access.specs.Requested.{AwaitsRender, RunsAfterRequest};
ghost use Rattle.cache_access.specs.Turned.{Goes};
ghost use Rattle.catalog.specs.Valid.{IsValid};
ghost use Rattle.raster_field.specs.Blocks.{IsMeta};

use crate::access::Access;
use cabinet::{Asked, Forced};
use metatile_locks::Ticket;
use metatile_plan::MetaKey;
use raster_field::first_tile;
use std::alloc::{AllocError, Global};

/// What a request for a metatile comes to, when no other render of it runs.
pub(crate) enum Requested {
    /// It is kept, under this number.
    Kept(u64),
    /// The caller is to render it, and then to finish or abandon it.
    Ticket(Ticket),
    /// No number is left.
    Spent,
}

/// Asks for the first tile of a metatile, or with force for a render of it, until no other render of it runs. `AllocError` if memory runs
/// out.
pub(crate) fn request<A: Access>(
    access: &A,
    alloc: Global,
    cache: &mut A::Cache,
    meta: &MetaKey,
    is_forced: bool,
) -> Result<Requested, AllocError>
    requires reaches { A.reaches access.now cache.old }
    requires rests { A.rests access.now cache.old }
    requires valid { IsValid (A.catalogue access.now cache.old) }
    requires meta { IsMeta (A.catalogue access.now cache.old) meta.now }
    ensures waits { AwaitsRender (A.gains access.now) (A.catalogue access.now cache.old) meta.now is_forced cache.old cache.new result }
    ensures goes { Goes (A.catalogue access.now) (A.reaches access.now) (A.owes access.now) (A.lasts access.now) cache.old cache.new }
    ensures still { A.sound access.now cache.old → A.sound access.now cache.new }
    ensures runs { RunsAfterRequest (A.rests access.now cache.new) (A.holds access.now cache.new) result }
{
    if is_forced {
        return match access.force(alloc, cache, meta) {
            Err(fault) => Err(fault),
            Ok(Forced::Ticket(ticket)) => Ok(Requested::Ticket(ticket)),
            Ok(Forced::Busy(_)) => unreachable!(),
            Ok(Forced::Spent) => Ok(Requested::Spent),
        };
    }
    let address = first_tile(access.catalogue(cache), meta);
    match access.ask(alloc, cache, &address) {
        Err(fault) => Err(fault),
        Ok(Asked::Hit(number, _)) => Ok(Requested::Kept(number)),
        Ok(Asked::Ticket(ticket)) => Ok(Requested::Ticket(ticket)),
        Ok(Asked::Busy(_)) => unreachable!(),
        Ok(Asked::Spent) => Ok(Requested::Spent),
    }
}
