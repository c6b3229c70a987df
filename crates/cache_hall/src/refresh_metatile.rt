//! Metatiles that are kept anew over a hall.
ghost use Rattle.std.specs.Prelude.{IfErr, Some, true, ◌≡◌, ◌≤◌};
ghost use Rattle.base.specs.Causes.{Rose};
ghost use Rattle.cache_hall.specs.Refreshes.{Refreshes};
ghost use Rattle.cache_hall.specs.Turned.{IsPassOf};
ghost use Rattle.catalog.specs.Valid.{IsValid};
ghost use Rattle.raster_field.specs.Blocks.{IsMeta};
ghost use Rattle.source_render.specs.Renders.{StaysGiven};

use crate::hall::Hall;
use crate::shared::Shared;
use cabinet::Keeper;
use cabinet_chest::CabinetChest;
use cache_access::{GetFault, Refreshed};
use metatile_plan::MetaKey;
use source_render::Source;
use std::alloc::Global;
use std::sync::Wait;
use turnstile::Pass;

/// Refreshes a metatile: it asks for its first tile, or with force for a render of it, until no render of it runs elsewhere; what is kept
/// stays, and what isn't is rendered and handed in, between two turns.
///
/// `SourceFault` only if the source's count of faults rose; `Spent` if no number of a render is left; `OutOfMemory` if memory runs out.
/// A ticket that was given is then abandoned.
pub fn refresh<R: Wait, K: Keeper, S: Source>(
    rt: &R,
    alloc: Global,
    hall: &Hall<K>,
    pass: &mut Pass<CabinetChest<K>>,
    source: &mut S,
    meta: &MetaKey,
    is_forced: bool,
) -> Result<Refreshed, GetFault>
    requires of { IsPassOf hall.now.turnstile.table hall.now.catalogue pass.old }
    requires valid { IsValid hall.now.catalogue }
    requires meta { IsMeta hall.now.catalogue meta.now }
    requires source { pass.old.told ≡ true → S.told source.old ≡ Some hall.now.catalogue.source }
    ensures refreshes { Refreshes hall.now.catalogue (S.gave source.new) meta.now is_forced pass.old pass.new result }
    ensures of { IsPassOf hall.now.turnstile.table hall.now.catalogue pass.new }
    ensures later { S.faults source.old ≤ S.faults source.new }
    ensures cause { IfErr result (λ e. e ≡ GetFault.SourceFault → Rose (S.faults source.old) (S.faults source.new)) }
    ensures told { S.told source.new ≡ S.told source.old }
    ensures grows { StaysGiven (S.gave source.old) (S.gave source.new) }
{
    cache_access::refresh(&Shared { rt, hall }, alloc, pass, source, meta, is_forced)
}
