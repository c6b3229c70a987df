//! The word that runs a job on the cache of a disk.
ghost use Rattle.std.specs.Prelude.{ℕ, ◌≡◌, ◌≤◌, IsTrue, List, map};
ghost use Rattle.cache_core.specs.Lasting.{Lasting};
ghost use Rattle.catalog.specs.Valid.{IsValid};
ghost use Rattle.durable_cabinet.specs.Images.{IsOurs};
ghost use Rattle.job_forms.specs.Job.{Fits};
ghost use Rattle.job_places.specs.Tallies.{tally_of};
ghost use Rattle.job_words.specs.Ends.{IsDoneSo, RunsAndSaves, RunsJob};
ghost use Rattle.job_words.specs.Visit.{LoneVisit};
ghost use Rattle.opened_cache.specs.Change.{DiskChange};
ghost use Rattle.opened_cache.specs.Crash.{LastsThrough};
ghost use Rattle.sessions.specs.Outside.{InputChange, Outside, counts};
ghost use Rattle.tile_service.specs.Session.{IsAtRest};

use crate::input::job_in;
use crate::job_end::JobEnd;
use crate::running::run_places;
use crate::text::told_tally;
use base::Clock;
use cabinet::Keeper;
use cache_core::laws_of_lasting;
use catalog::Catalogue;
use command_status::status_of_opening;
use disk_model::Disk;
use http_wire::{ByteSink, ByteSource};
use job_forms::Job;
use job_places::Tally;
use opened_cache::{Loan, close_cache, open_cache, save_all};
use source_render::Source;
use std::alloc::Global;
use std::marker::Brand;

/// Reads the job of the input, opens the cache of the disk, visits each place of the job, saves the uses of what is kept, and writes how
/// many places are done and how many failed. How many of those done were rendered and could not be kept stands in its end alone. A fault of
/// the disk ends it at the opening alone. Each end comes as `RunsJob` says.
pub fn run_job<D: Disk, S: Source, I: ByteSource, O: ByteSink>(
    alloc: Global,
    catalogue: Catalogue,
    input: &mut I,
    clock: Clock,
    disk: &mut D,
    source: &mut S,
    output: &mut O,
) -> JobEnd
    requires valid { IsValid catalogue }
    requires ours { IsTrue (D.told disk.old) → IsOurs catalogue (D.state disk.old).seen }
    ensures runs { RunsJob catalogue clock
        (record { reads = counts (I.faults input.old) (I.faults input.new); from = I.left input.old; to = I.left input.new })
        (record { told = S.told source.old; renders = counts (S.faults source.old) (S.faults source.new); disk = counts (D.faults disk.old) (D.faults disk.new); writes = counts (O.faults output.old) (O.faults output.new); from = O.taken output.old; to = O.taken output.new })
        (record { told = D.told disk.old; faults = counts (D.faults disk.old) (D.faults disk.new); from = D.state disk.old; to = D.state disk.new })
        (disk.new ≡ disk.old) ((output.new ≡ output.old) × (source.new ≡ source.old)) result.unkept result.status }
    ensures lasts { LastsThrough catalogue (record { told = D.told disk.old; faults = counts (D.faults disk.old) (D.faults disk.new); from = D.state disk.old; to = D.state disk.new }) }
    ensures told { D.told disk.new ≡ D.told disk.old }
{
    match job_in(alloc, &catalogue, input) {
        Ok(job) => {
            run_over::<D, S, O, Brand>(alloc, catalogue, &job, clock, disk, source, output).1
        }
        Err(status) => JobEnd { status, unkept: 0 },
    }
}

/// Runs a job in a cabinet, and then saves the uses of what is kept.
fn run_and_save<C: Keeper, S: Source>(
    alloc: Global,
    cabinet: &mut C,
    source: &mut S,
    job: &Job,
) -> Tally
    requires valid { IsValid (C.state cabinet.old).catalogue }
    requires fits { Fits (C.state cabinet.old).catalogue job.now }
    requires rest { IsAtRest (C.state cabinet.old) }
    ensures runs { (before : ℕ) → before ≤ C.faults cabinet.old → (visits : List LoneVisit) × (result ≡ tally_of (map (λ v. v.end) visits))
        × RunsAndSaves (S.told source.old) (counts (S.faults source.old) (S.faults source.new)) (counts before (C.faults cabinet.new)) job.now visits (C.state cabinet.old) (C.state cabinet.new) }
    ensures lasts { Lasting (C.outlasts cabinet.old cabinet.new) (C.state cabinet.old) (C.state cabinet.new) }
{
    laws_of_lasting::<C>();
    let tally = run_places(alloc, cabinet, source, job);
    save_all(cabinet);
    tally
}

/// Runs a job on the disk of a loan, which is handed back.
fn run_over<'a, D: Disk, S: Source, O: ByteSink, L: Loan>(
    alloc: Global,
    catalogue: Catalogue,
    job: &Job,
    clock: Clock,
    disk: &'a mut D,
    source: &mut S,
    output: &mut O,
) -> (&'a mut D, JobEnd)
    requires valid { IsValid catalogue }
    requires fits { Fits catalogue job.now }
    requires loan { disk.ghost_name ≡ L.disk }
    requires ours { IsTrue (D.told disk.now) → IsOurs catalogue (D.state disk.now).seen }
    ensures runs { IsDoneSo catalogue clock job.now
        (record { told = S.told source.old; renders = counts (S.faults source.old) (S.faults source.new); disk = counts (D.faults disk.entry.now) (D.faults result.0.now); writes = counts (O.faults output.old) (O.faults output.new); from = O.taken output.old; to = O.taken output.new })
        (record { told = D.told disk.entry.now; faults = counts (D.faults disk.entry.now) (D.faults result.0.now); from = D.state disk.entry.now; to = D.state result.0.now })
        ((output.new ≡ output.old) × (source.new ≡ source.old)) result.1.unkept result.1.status }
    ensures lasts { LastsThrough catalogue (record { told = D.told disk.entry.now; faults = counts (D.faults disk.entry.now) (D.faults result.0.now); from = D.state disk.entry.now; to = D.state result.0.now }) }
    ensures told { D.told result.0.now ≡ D.told disk.entry.now }
    ensures loan { result.0.ghost_name ≡ L.disk }
{
    match open_cache::<D, L>(alloc, catalogue, clock, disk) {
        Ok(mut cabinet) => {
            let tally = run_and_save(alloc, &mut cabinet, source, job);
            let disk = close_cache(cabinet);
            let status = told_tally(output, job.kind, &tally);
            let unkept = tally.unkept;
            (disk, JobEnd { status, unkept })
        }
        Err(refusal) => {
            let (fault, disk) = refusal;
            let status = status_of_opening(fault);
            (disk, JobEnd { status, unkept: 0 })
        }
    }
}
