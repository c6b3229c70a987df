//! How asks and forces wait while another render of their metatile runs.
ghost use Rattle.cache_access.specs.Waits.{Waits, WaitsForced};
ghost use Rattle.cache_hall.specs.Turned.{GainsTurns, IsPassOf};
ghost use Rattle.catalog.specs.LookUp.{IsTile};
ghost use Rattle.raster_field.specs.Blocks.{IsMeta};
ghost use Rattle.turnstile.specs.Passes.{Stays};

use crate::hall::Hall;
use crate::turns::{ask, force};
use cabinet::{Asked, Forced, Keeper};
use cabinet_chest::CabinetChest;
use matrix_geometry::Address;
use metatile_plan::MetaKey;
use std::alloc::{AllocError, Global};
use std::sync::Wait;
use turnstile::Pass;

/// Asks for a tile until the answer isn't that another render of its metatile runs, and sleeps meanwhile. `AllocError` if memory runs out
/// for an ask.
pub(crate) fn ask_until<R: Wait, K: Keeper>(
    rt: &R,
    alloc: Global,
    hall: &Hall<K>,
    pass: &mut Pass<CabinetChest<K>>,
    address: &Address,
) -> Result<Asked, AllocError>
    requires of { IsPassOf hall.now.turnstile.table hall.now.catalogue pass.old }
    requires tile { IsTile hall.now.catalogue address.now }
    ensures waits { Waits (GainsTurns hall.now.catalogue) address.now pass.old pass.new result }
    ensures stays { Stays pass.old pass.new }
{
    'asking: for _ in rt.forever() {
        let heard = hall.changes();
        match ask(rt, alloc, hall, pass, address) {
            Err(fault) => return Err(fault),
            Ok(Asked::Busy(_)) => hall.rest(rt, heard),
            Ok(Asked::Hit(number, bytes)) => return Ok(Asked::Hit(number, bytes)),
            Ok(Asked::Ticket(ticket)) => return Ok(Asked::Ticket(ticket)),
            Ok(Asked::Spent) => return Ok(Asked::Spent),
        }
    }
    unreachable!()
}

/// Asks for a render of a metatile until the answer isn't that another one runs, and sleeps meanwhile. `AllocError` if memory runs out for
/// a force.
pub(crate) fn force_until<R: Wait, K: Keeper>(
    rt: &R,
    alloc: Global,
    hall: &Hall<K>,
    pass: &mut Pass<CabinetChest<K>>,
    meta: &MetaKey,
) -> Result<Forced, AllocError>
    requires of { IsPassOf hall.now.turnstile.table hall.now.catalogue pass.old }
    requires meta { IsMeta hall.now.catalogue meta.now }
    ensures waits { WaitsForced (GainsTurns hall.now.catalogue) meta.now pass.old pass.new result }
    ensures stays { Stays pass.old pass.new }
{
    'forcing: for _ in rt.forever() {
        let heard = hall.changes();
        match force(rt, alloc, hall, pass, meta) {
            Err(fault) => return Err(fault),
            Ok(Forced::Busy(_)) => hall.rest(rt, heard),
            Ok(Forced::Ticket(ticket)) => return Ok(Forced::Ticket(ticket)),
            Ok(Forced::Spent) => return Ok(Forced::Spent),
        }
    }
    unreachable!()
}
