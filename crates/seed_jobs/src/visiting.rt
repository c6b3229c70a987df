//! The work at one place, by a pass.
ghost use Rattle.std.specs.Prelude.{Some, length, true, ◌<◌, ◌≡◌};
ghost use Rattle.cache_hall.specs.Turned.{IsPassOf};
ghost use Rattle.catalog.specs.Valid.{IsValid};
ghost use Rattle.job_forms.specs.Job.{Fits};
ghost use Rattle.job_forms.specs.Places.{places};
ghost use Rattle.seed_jobs.specs.Visited.{HasVisited};
ghost use Rattle.source_render.specs.Renders.{renders};

use cabinet::Keeper;
use cabinet_chest::CabinetChest;
use cache_hall::{Hall, Shared};
use job_forms::Job;
use job_places::PlaceEnd;
use source_render::Source;
use std::alloc::Global;
use std::sync::Wait;
use turnstile::Pass;

/// Refreshes the metatile at a place, or makes the one cut, and says how that ended.
pub(crate) fn visit<R: Wait, K: Keeper, S: Source>(
    rt: &R,
    alloc: Global,
    hall: &Hall<K>,
    job: &Job,
    place: u64,
    pass: &mut Pass<CabinetChest<K>>,
    source: &mut S,
) -> PlaceEnd
    requires of { IsPassOf hall.now.turnstile.table hall.now.catalogue pass.old }
    requires valid { IsValid hall.now.catalogue }
    requires fits { Fits hall.now.catalogue job.now }
    requires place { place < length (places hall.now.catalogue job.now) }
    requires source { pass.old.told ≡ true → S.told source.old ≡ Some hall.now.catalogue.source }
    ensures visited { HasVisited hall.now.catalogue job.now place (renders (S.faults source.old) (S.gave source.old)) (renders (S.faults source.new) (S.gave source.new)) pass.old pass.new result }
    ensures of { IsPassOf hall.now.turnstile.table hall.now.catalogue pass.new }
    ensures told { S.told source.new ≡ S.told source.old }
{
    job_places::visit(&Shared { rt, hall }, alloc, pass, source, job, place)
}
