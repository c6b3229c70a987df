//! A crew: the workers of a job, side by side.
ghost use Rattle.std.specs.Prelude.{All, IfNone, IfSome, length, map, [], ◌+◌, ◌≡◌, ◌≤◌};
ghost use Rattle.catalog.specs.Valid.{IsValid};
ghost use Rattle.job_board.specs.Hands.{AreFresh};
ghost use Rattle.job_forms.specs.Job.{Fits};
ghost use Rattle.job_forms.specs.Places.{places};
ghost use Rattle.seed_jobs.specs.Crews.{AreShared, HaveWorked, SeesEnd, hands_of, total_of};
ghost use Rattle.seed_jobs.specs.Members.{tallies_of, worker_of, workers_of};
ghost use Rattle.seed_jobs.specs.Workers.{MayWork};
ghost use Rattle.seed_jobs.specs.Works.{Works};

use crate::gate::Gate;
use crate::gathering::gather;
use crate::member::Member;
use crate::totals::total;
use crate::worker::work;
use cabinet::Keeper;
use cache_hall::Hall;
use job_board::{Hand, JobSheet};
use job_forms::Job;
use job_places::Tally;
use source_render::Source;
use std::alloc::Global;
use std::sync::Wait;
use std::thread::{Threads, for_each_mut};

/// What a crew came to.
#[derive(Drop)]
pub struct CrewEnd {
    /// The sum of all tallies.
    pub total: Tally,
    /// A watch of the job's sheet that has seen all that the hands of the crew have; none where nobody was in it.
    pub watch: Option<Hand>,
}

/// Lets a member work, and puts its tally into it.
fn work_as<R: Wait, K: Keeper, S: Source, G: Gate>(
    rt: &R,
    alloc: Global,
    hall: &Hall<K>,
    job: &Job,
    sheet: &JobSheet,
    member: &mut Member<K, S, G>,
)
    requires valid { IsValid hall.now.catalogue }
    requires fits { Fits hall.now.catalogue job.now }
    requires sheet { sheet.now.places ≡ length (places hall.now.catalogue job.now) }
    requires worker { MayWork hall.now.turnstile.table hall.now.catalogue sheet.now
        (worker_of S.told S.faults S.gave member.old) }
    ensures works { Works hall.now.catalogue job.now
        (worker_of S.told S.faults S.gave member.old)
        (worker_of S.told S.faults S.gave member.new) member.new.tally }
{
    member.tally = work(
        rt,
        alloc,
        hall,
        job,
        sheet,
        &mut member.hand,
        &mut member.pass,
        &mut member.source,
        &mut member.gate,
    );
}

/// Lets each member work, in a thread of its own where one can be made.
fn work_all<R: Threads + Wait + Sync, K: Keeper + Send, S: Source + Send, G: Gate + Send>(
    rt: &R,
    alloc: Global,
    hall: &Hall<K>,
    job: &Job,
    sheet: &JobSheet,
    crew: &mut [Member<K, S, G>],
)
    requires valid { IsValid hall.now.catalogue }
    requires fits { Fits hall.now.catalogue job.now }
    requires sheet { sheet.now.places ≡ length (places hall.now.catalogue job.now) }
    requires crew { All (MayWork hall.now.turnstile.table hall.now.catalogue sheet.now) (workers_of S.told S.faults S.gave crew.old) }
    ensures worked { HaveWorked hall.now.catalogue job.now
        (workers_of S.told S.faults S.gave crew.old) (workers_of S.told S.faults S.gave crew.new) (tallies_of crew.new) }
{
    let threads = crew.len().max(1);
    for_each_mut(
        rt,
        crew,
        threads,
        &|_, member: &mut Member<K, S, G>|
            requires { IsValid hall.now.catalogue × Fits hall.now.catalogue job.now × (sheet.now.places ≡ length (places hall.now.catalogue job.now))
                × MayWork hall.now.turnstile.table hall.now.catalogue sheet.now (worker_of S.told S.faults S.gave member.old) }
            ensures { Works hall.entry.now.catalogue job.entry.now
                (worker_of S.told S.faults S.gave member.old)
                (worker_of S.told S.faults S.gave member.new) member.new.tally }
        { work_as(rt, alloc, hall, job, sheet, member) },
    );
}

/// Runs a job by a crew: each member works once, in a thread of its own where one can be made, and its tally is put into it. The answer
/// is the sum of all tallies, and a watch of the sheet that has seen the end of the job where the crew has all hands of a fresh sheet.
///
/// Where threads can't be made the members work one after the other, so a gate must not wait for another member for ever.
pub fn run_seed<R: Threads + Wait + Sync, K: Keeper + Send, S: Source + Send, G: Gate + Send>(
    rt: &R,
    alloc: Global,
    hall: &Hall<K>,
    job: &Job,
    sheet: &JobSheet,
    crew: &mut [Member<K, S, G>],
) -> CrewEnd
    requires valid { IsValid hall.now.catalogue }
    requires fits { Fits hall.now.catalogue job.now }
    requires sheet { sheet.now.places ≡ length (places hall.now.catalogue job.now) }
    requires size { length crew.old ≤ 63 }
    requires crew { All (MayWork hall.now.turnstile.table hall.now.catalogue sheet.now) (workers_of S.told S.faults S.gave crew.old) }
    ensures worked { HaveWorked hall.now.catalogue job.now
        (workers_of S.told S.faults S.gave crew.old) (workers_of S.told S.faults S.gave crew.new) (tallies_of crew.new) }
    ensures total { result.total ≡ total_of (tallies_of crew.new) }
    ensures shared { AreFresh sheet.now (hands_of (workers_of S.told S.faults S.gave crew.old))
        → AreShared sheet.now (hands_of (workers_of S.told S.faults S.gave crew.new)) result.total.places }
    ensures ended { AreFresh sheet.now (hands_of (workers_of S.told S.faults S.gave crew.old))
        → IfSome result.watch (λ w. SeesEnd sheet.now result.total.done result.total.failed result.total.unkept w) }
    ensures none { IfNone result.watch (crew.old ≡ []) }
{
    work_all(rt, alloc, hall, job, sheet, crew);
    let watch = gather(sheet, crew);
    CrewEnd {
        total: total(crew),
        watch,
    }
}
