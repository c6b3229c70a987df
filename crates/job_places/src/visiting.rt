//! The work at one place of a job.
ghost use Rattle.std.specs.Prelude.{Some, length, ◌<◌, ◌≡◌, ◌≢◌, ◌≤◌};
ghost use Rattle.cache_access.specs.Turned.{Goes};
ghost use Rattle.catalog.specs.Valid.{IsValid};
ghost use Rattle.job_forms.specs.Job.{Fits};
ghost use Rattle.job_forms.specs.Places.{places};
ghost use Rattle.job_places.specs.Ends.{end_of_cut, end_of_refresh};
ghost use Rattle.job_places.specs.Visits.{HasCut, Visits, forces};
ghost use Rattle.served_covers.specs.OfCatalogue.{IsCoverOf};
ghost use Rattle.source_render.specs.Renders.{renders};

use crate::place::{PlaceEnd, PlaceFault};
use cabinet::CutReply;
use cache_access::{Access, GetFault, Refreshed, refresh};
use job_forms::{Job, JobKind, nth};
use source_render::Source;
use std::alloc::{AllocError, Global};
use truncation_list::Cover;

/// How a refresh ends the place of its metatile.
fn end_of_refresh(answer: Result<Refreshed, GetFault>) -> PlaceEnd
    ensures { result ≡ end_of_refresh answer }
{
    match answer {
        Ok(Refreshed::AlreadyKept(_) | Refreshed::Made(_)) => PlaceEnd::Done,
        Ok(Refreshed::Unkept(_)) => PlaceEnd::Unkept,
        Err(GetFault::SourceFault) => PlaceEnd::Failed(PlaceFault::Source),
        Err(GetFault::Spent) => PlaceEnd::Failed(PlaceFault::Spent),
        Err(GetFault::OutOfMemory) => PlaceEnd::Failed(PlaceFault::Memory),
    }
}

/// How the reply of the one cut ends its place.
fn end_of_cut(answer: Result<CutReply, AllocError>) -> PlaceEnd
    ensures { result ≡ end_of_cut answer }
{
    match answer {
        Ok(CutReply::Done(_)) => PlaceEnd::Done,
        Ok(CutReply::Full) => PlaceEnd::Failed(PlaceFault::CutsFull),
        Ok(CutReply::DiskFault(_, _)) => PlaceEnd::Failed(PlaceFault::Disk),
        Ok(CutReply::Spent) => PlaceEnd::Failed(PlaceFault::Spent),
        Err(_) => PlaceEnd::Failed(PlaceFault::Memory),
    }
}

/// Whether a job of this kind renders each metatile, kept or not.
fn forces(kind: JobKind) -> bool
    ensures { result ≡ forces kind }
{
    match kind {
        JobKind::Seed => false,
        JobKind::Reseed => true,
        JobKind::Truncate => false,
    }
}

/// Refreshes the metatile at a place of a seed or a reseed.
fn refresh_at<A: Access, S: Source>(
    access: &A,
    alloc: Global,
    cache: &mut A::Cache,
    source: &mut S,
    job: &Job,
    place: u64,
) -> PlaceEnd
    requires reaches { A.reaches access.now cache.old }
    requires rests { A.rests access.now cache.old }
    requires valid { IsValid (A.catalogue access.now cache.old) }
    requires fits { Fits (A.catalogue access.now cache.old) job.now }
    requires kind { job.now.kind ≢ JobKind.Truncate }
    requires place { place < length (places (A.catalogue access.now cache.old) job.now) }
    requires source { A.owes access.now cache.old → S.told source.old ≡ Some (A.catalogue access.now cache.old).source }
    ensures visits { Visits (A.gains access.now) (A.catalogue access.now cache.old) (A.sound access.now cache.old × (S.told source.old ≡ Some (A.catalogue access.now cache.old).source)) job.now place (A.seen access.now cache.old) (A.seen access.now cache.new) (renders (S.faults source.old) (S.gave source.old)) (renders (S.faults source.new) (S.gave source.new)) cache.old cache.new result }
    ensures goes { Goes (A.catalogue access.now) (A.reaches access.now) (A.owes access.now) (A.lasts access.now) cache.old cache.new }
    ensures still { S.told source.old ≡ Some (A.catalogue access.now cache.old).source → A.sound access.now cache.old → A.sound access.now cache.new }
    ensures rests { A.rests access.now cache.new }
    ensures told { S.told source.new ≡ S.told source.old }
{
    let meta = nth(access.catalogue(cache), job, place);
    let is_forced = forces(job.kind);
    end_of_refresh(refresh(access, alloc, cache, source, &meta, is_forced))
}

/// Makes the one cut of a truncation.
fn cut<A: Access>(access: &A, alloc: Global, cache: &mut A::Cache, cover: &Cover) -> PlaceEnd
    requires reaches { A.reaches access.now cache.old }
    requires cover { IsCoverOf (A.catalogue access.now cache.old) cover.now }
    ensures cut { HasCut (A.gains access.now) cover.now cache.old cache.new result }
    ensures goes { Goes (A.catalogue access.now) (A.reaches access.now) (A.owes access.now) (A.lasts access.now) cache.old cache.new }
    ensures still { A.sound access.now cache.old → A.sound access.now cache.new }
    ensures rests { A.rests access.now cache.old → A.rests access.now cache.new }
{
    end_of_cut(access.cut(alloc, cache, cover))
}

/// Visits a place of a job that fits: refreshes its metatile, by force in a reseed, or makes the one cut of a truncation, and says how that
/// ended. It is done where a metatile is kept, and where the cut is made; and `Unkept`, which is done too, exactly where the refresh said that
/// it rendered the metatile and could not keep it.
///
/// Each fault is that of the refresh or of the cut, and named: `Source` only if the source's count of faults rose; `Spent` if no number of
/// a render or of a cut is left; `CutsFull` if there is no room for the cut; `Disk` if the disk failed at the cut; `Memory` if memory ran out.
pub fn visit<A: Access, S: Source>(
    access: &A,
    alloc: Global,
    cache: &mut A::Cache,
    source: &mut S,
    job: &Job,
    place: u64,
) -> PlaceEnd
    requires reaches { A.reaches access.now cache.old }
    requires rests { A.rests access.now cache.old }
    requires valid { IsValid (A.catalogue access.now cache.old) }
    requires fits { Fits (A.catalogue access.now cache.old) job.now }
    requires place { place < length (places (A.catalogue access.now cache.old) job.now) }
    requires source { A.owes access.now cache.old → S.told source.old ≡ Some (A.catalogue access.now cache.old).source }
    ensures visits { Visits (A.gains access.now) (A.catalogue access.now cache.old) (A.sound access.now cache.old × (S.told source.old ≡ Some (A.catalogue access.now cache.old).source)) job.now place (A.seen access.now cache.old) (A.seen access.now cache.new) (renders (S.faults source.old) (S.gave source.old)) (renders (S.faults source.new) (S.gave source.new)) cache.old cache.new result }
    ensures goes { Goes (A.catalogue access.now) (A.reaches access.now) (A.owes access.now) (A.lasts access.now) cache.old cache.new }
    ensures still { S.told source.old ≡ Some (A.catalogue access.now cache.old).source → A.sound access.now cache.old → A.sound access.now cache.new }
    ensures rests { A.rests access.now cache.new }
    ensures told { S.told source.new ≡ S.told source.old }
{
    match job.kind {
        JobKind::Seed => refresh_at(access, alloc, cache, source, job, place),
        JobKind::Reseed => refresh_at(access, alloc, cache, source, job, place),
        JobKind::Truncate => cut(access, alloc, cache, &job.cover),
    }
}
