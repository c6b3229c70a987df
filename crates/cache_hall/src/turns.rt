//! Single asks and forces at the cabinet of a hall.
ghost use Rattle.std.specs.Prelude.{[], IfOk, OnErr};
ghost use Rattle.cache_hall.specs.Turned.{GainsOne, GainsTurns, IsPassOf};
ghost use Rattle.catalog.specs.LookUp.{IsTile};
ghost use Rattle.raster_field.specs.Blocks.{IsMeta};
ghost use Rattle.turnstile.specs.Passes.{Stays};

use crate::hall::Hall;
use cabinet::{Asked, Forced, Keeper};
use cabinet_chest::{CabinetChest, Command, Reply};
use matrix_geometry::Address;
use metatile_plan::MetaKey;
use std::alloc::{AllocError, Global};
use std::sync::Wait;
use turnstile::Pass;

/// An ask. `AllocError` if memory runs out; there is then no turn.
pub(crate) fn ask<R: Wait, K: Keeper>(
    rt: &R,
    alloc: Global,
    hall: &Hall<K>,
    pass: &mut Pass<CabinetChest<K>>,
    address: &Address,
) -> Result<Asked, AllocError>
    requires of { IsPassOf hall.now.turnstile.table hall.now.catalogue pass.old }
    requires tile { IsTile hall.now.catalogue address.now }
    ensures done { IfOk result (λ asked. GainsOne hall.now.catalogue pass.old pass.new (Command.Ask address.now) (Reply.Asked asked)) }
    ensures refused { OnErr result (GainsTurns hall.now.catalogue pass.old pass.new []) }
    ensures stays { Stays pass.old pass.new }
{
    match hall.turnstile.turn(rt, alloc, pass, Command::Ask(*address)) {
        Err(fault) => Err(fault),
        Ok(Reply::Asked(asked)) => Ok(asked),
        Ok(_) => unreachable!(),
    }
}

/// A force. `AllocError` if memory runs out; there is then no turn.
pub(crate) fn force<R: Wait, K: Keeper>(
    rt: &R,
    alloc: Global,
    hall: &Hall<K>,
    pass: &mut Pass<CabinetChest<K>>,
    meta: &MetaKey,
) -> Result<Forced, AllocError>
    requires of { IsPassOf hall.now.turnstile.table hall.now.catalogue pass.old }
    requires meta { IsMeta hall.now.catalogue meta.now }
    ensures done { IfOk result (λ forced. GainsOne hall.now.catalogue pass.old pass.new (Command.Force meta.now) (Reply.Forced forced)) }
    ensures refused { OnErr result (GainsTurns hall.now.catalogue pass.old pass.new []) }
    ensures stays { Stays pass.old pass.new }
{
    match hall.turnstile.turn(rt, alloc, pass, Command::Force(*meta)) {
        Err(fault) => Err(fault),
        Ok(Reply::Forced(forced)) => Ok(forced),
        Ok(_) => unreachable!(),
    }
}
