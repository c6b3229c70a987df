//! Tiles over a hall.
ghost use Rattle.std.specs.Prelude.{IfErr, Some, true, ◌≡◌, ◌≤◌};
ghost use Rattle.base.specs.Causes.{Rose};
ghost use Rattle.cache_hall.specs.Gets.{Gets};
ghost use Rattle.cache_hall.specs.Turned.{IsPassOf};
ghost use Rattle.catalog.specs.LookUp.{IsTile};
ghost use Rattle.catalog.specs.Valid.{IsValid};
ghost use Rattle.source_render.specs.Renders.{StaysGiven};

use crate::hall::Hall;
use crate::shared::Shared;
use cabinet::Keeper;
use cabinet_chest::CabinetChest;
use cache_access::GetFault;
use cache_core::Tile;
use matrix_geometry::Address;
use source_render::Source;
use std::alloc::Global;
use std::sync::Wait;
use turnstile::Pass;

/// Gets a tile: it asks until no render of the tile's metatile runs elsewhere, and then takes the kept tile, or renders the metatile and
/// hands it in, between two turns.
///
/// `SourceFault` only if the source's count of faults rose; `Spent` if no number of a render is left; `OutOfMemory` if memory runs out.
/// A ticket that was given is then abandoned.
pub fn get<R: Wait, K: Keeper, S: Source>(
    rt: &R,
    alloc: Global,
    hall: &Hall<K>,
    pass: &mut Pass<CabinetChest<K>>,
    source: &mut S,
    address: &Address,
) -> Result<Tile, GetFault>
    requires of { IsPassOf hall.now.turnstile.table hall.now.catalogue pass.old }
    requires valid { IsValid hall.now.catalogue }
    requires tile { IsTile hall.now.catalogue address.now }
    requires source { pass.old.told ≡ true → S.told source.old ≡ Some hall.now.catalogue.source }
    ensures gets { Gets hall.now.catalogue (S.gave source.new) address.now pass.old pass.new result }
    ensures of { IsPassOf hall.now.turnstile.table hall.now.catalogue pass.new }
    ensures later { S.faults source.old ≤ S.faults source.new }
    ensures cause { IfErr result (λ e. e ≡ GetFault.SourceFault → Rose (S.faults source.old) (S.faults source.new)) }
    ensures told { S.told source.new ≡ S.told source.old }
    ensures grows { StaysGiven (S.gave source.old) (S.gave source.new) }
{
    cache_access::get(&Shared { rt, hall }, alloc, pass, source, address)
}
