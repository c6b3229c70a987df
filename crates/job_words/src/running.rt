//! The places of a job, visited in order.
ghost use Rattle.std.specs.Prelude.{◌≡◌, ◌<◌, ◌≤◌, ◌+◌, List, Some, length, map, slice_get};
ghost use Rattle.cache_core.specs.Lasting.{Lasting};
ghost use Rattle.catalog.specs.Valid.{IsValid};
ghost use Rattle.job_forms.specs.Job.{Fits};
ghost use Rattle.job_forms.specs.Places.{Place, places};
ghost use Rattle.job_places.specs.Tallies.{tally_of};
ghost use Rattle.job_places.specs.Visits.{forces};
ghost use Rattle.job_words.specs.Coming.{ComesTo};
ghost use Rattle.job_words.specs.Run.{IsJobRun};
ghost use Rattle.job_words.specs.Visit.{LoneVisit};
ghost use Rattle.sessions.specs.Outside.{counts};
ghost use Rattle.tile_service.specs.Session.{IsAtRest};

use cabinet::Keeper;
use cache_access::Alone;
use cache_core::laws_of_lasting;
use job_forms::{Job, count, laws_of_places};
use job_places::{PlaceEnd, Tally};
use source_render::Source;
use std::alloc::Global;
use tile_requests::laws_of_lone_threads;

/// Visits the place of this number: its metatile is refreshed, by force in a reseed, or its cut is made.
fn visit<C: Keeper, S: Source>(
    alloc: Global,
    cabinet: &mut C,
    source: &mut S,
    job: &Job,
    place: u64,
) -> PlaceEnd
    requires valid { IsValid (C.state cabinet.old).catalogue }
    requires fits { Fits (C.state cabinet.old).catalogue job.now }
    requires place { place < length (places (C.state cabinet.old).catalogue job.now) }
    requires rest { IsAtRest (C.state cabinet.old) }
    ensures comes { (p : Place) × (slice_get (places (C.state cabinet.old).catalogue job.now) place ≡ Some p) × ComesTo (S.told source.old) (counts (S.faults source.old) (S.faults source.new)) (counts (C.faults cabinet.old) (C.faults cabinet.new)) (forces job.now.kind) (C.state cabinet.old) p result (C.state cabinet.new) }
    ensures told { S.told source.new ≡ S.told source.old }
    ensures lasts { Lasting (C.outlasts cabinet.old cabinet.new) (C.state cabinet.old) (C.state cabinet.new) }
{
    laws_of_lone_threads();
    laws_of_places();
    let way = Alone::new();
    job_places::visit(&way, alloc, cabinet, source, job, place)
}

/// Runs a job in a cabinet in which no render runs: visits each of its places once, in order, and counts how they end. The memory that it
/// takes doesn't grow with the places.
pub fn run_places<C: Keeper, S: Source>(
    alloc: Global,
    cabinet: &mut C,
    source: &mut S,
    job: &Job,
) -> Tally
    requires valid { IsValid (C.state cabinet.old).catalogue }
    requires fits { Fits (C.state cabinet.old).catalogue job.now }
    requires rest { IsAtRest (C.state cabinet.old) }
    ensures runs { (visits : List LoneVisit) × (result ≡ tally_of (map (λ v. v.end) visits))
        × IsJobRun (S.told source.old) (counts (S.faults source.old) (S.faults source.new)) (counts (C.faults cabinet.old) (C.faults cabinet.new)) job.now visits (C.state cabinet.old) (C.state cabinet.new) }
    ensures adds_up { result.done + result.failed ≡ result.places }
    ensures later { C.faults cabinet.old ≤ C.faults cabinet.new }
    ensures told { S.told source.new ≡ S.told source.old }
    ensures lasts { Lasting (C.outlasts cabinet.old cabinet.new) (C.state cabinet.old) (C.state cabinet.new) }
{
    laws_of_lasting::<C>();
    let places = count(cabinet.catalogue(), job);
    let mut tally = Tally::new();
    'visiting: for place in 0..places {
        let end = visit(alloc, cabinet, source, job, place);
        tally = tally.and(&end);
    }
    tally
}
