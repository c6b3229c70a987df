//! How a crew comes together for a job, and how its members are idle again.
ghost use Rattle.std.specs.Prelude.{All, length, map, reverse, vec_capacity, [], ◌++◌, ◌+◌, ◌<◌, ◌≡◌, ◌≤◌};
ghost use Rattle.catalog.specs.Valid.{IsValid};
ghost use Rattle.job_board.specs.Hands.{AreFresh};
ghost use Rattle.job_forms.specs.Job.{Fits};
ghost use Rattle.job_forms.specs.Places.{places};
ghost use Rattle.seed_jobs.specs.Crews.{AreShared, HaveWorked, SeesEnd, hands_of, total_of};
ghost use Rattle.seed_jobs.specs.Idles.{MayJoin, all_idle, without_hand};
ghost use Rattle.seed_jobs.specs.Members.{tallies_of, workers_of};
ghost use Rattle.seed_jobs.specs.Runs.{IsJobRunByCrew};
ghost use Rattle.seed_jobs.specs.Workers.{MayWork};

use crate::crew::{CrewEnd, run_seed};
use crate::gates::JobGate;
use crate::member::Member;
use crate::runner::IdleMember;
use cabinet::Keeper;
use cache_hall::Hall;
use job_board::{Hand, JobSheet};
use job_forms::Job;
use job_places::Tally;
use source_render::Source;
use std::alloc::Global;
use std::sync::Wait;
use std::thread::Threads;

/// Makes a crew of these hands, in their order: each goes to the last member that is idle, whose gate is told that a job begins.
fn assemble<K: Keeper, S: Source, G: JobGate>(
    hands: Vec<Hand>,
    idle: &mut Vec<IdleMember<K, S, G>>,
    crew: &mut Vec<Member<K, S, G>>,
)
    requires enough { length hands.items ≤ length idle.old.items }
    requires none { crew.old.items ≡ [] }
    requires room { length hands.items ≤ vec_capacity crew.old }
    ensures hands { hands_of (workers_of S.told S.faults S.gave crew.new.items) ≡ hands.items }
    ensures members { all_idle S.told S.faults S.gave idle.old.items ≡ all_idle S.told S.faults S.gave idle.new.items ++ reverse (map without_hand (workers_of S.told S.faults S.gave crew.new.items)) }
    ensures room { (vec_capacity crew.new ≡ vec_capacity crew.old) × (vec_capacity idle.new ≡ vec_capacity idle.old) }
{
    'assembling: for hand in hands {
        let Some(IdleMember { pass, source, gate }) = idle.pop() else {
            unreachable!()
        };
        let mut gate = gate;
        gate.begin();
        crew.push_reserved(Member {
            hand,
            pass,
            source,
            gate,
            tally: Tally::new(),
        });
    }
}

/// The members of a crew are idle again, the last one first, and their gates are told that the job has ended. Their hands are dropped.
fn disband<K: Keeper, S: Source, G: JobGate>(
    crew: &mut Vec<Member<K, S, G>>,
    idle: &mut Vec<IdleMember<K, S, G>>,
)
    requires room { length idle.old.items + length crew.old.items ≤ vec_capacity idle.old }
    ensures none { crew.new.items ≡ [] }
    ensures members { all_idle S.told S.faults S.gave idle.new.items ≡ all_idle S.told S.faults S.gave idle.old.items ++ reverse (map without_hand (workers_of S.told S.faults S.gave crew.old.items)) }
    ensures room { (vec_capacity crew.new ≡ vec_capacity crew.old) × (vec_capacity idle.new ≡ vec_capacity idle.old) }
{
    'disbanding: while let Some(member) = crew.pop() {
        let Member {
            hand: _,
            pass,
            source,
            gate,
            tally: _,
        } = member;
        let mut gate = gate;
        gate.end();
        idle.push_reserved(IdleMember { pass, source, gate });
    }
}

/// Lets a crew that has all hands of a job's sheet do the job. The answer is a watch of the sheet that has seen the end.
fn crew_works<R: Threads + Wait + Sync, K: Keeper + Send, S: Source + Send, G: JobGate + Send>(
    rt: &R,
    alloc: Global,
    hall: &Hall<K>,
    job: &Job,
    sheet: &JobSheet,
    crew: &mut Vec<Member<K, S, G>>,
) -> Hand
    requires valid { IsValid hall.now.catalogue }
    requires fits { Fits hall.now.catalogue job.now }
    requires sheet { sheet.now.places ≡ length (places hall.now.catalogue job.now) }
    requires size { length crew.old.items ≤ 8 }
    requires some { 0 < length crew.old.items }
    requires crew { All (MayWork hall.now.turnstile.table hall.now.catalogue sheet.now) (workers_of S.told S.faults S.gave crew.old.items) }
    requires fresh { AreFresh sheet.now (hands_of (workers_of S.told S.faults S.gave crew.old.items)) }
    ensures worked { HaveWorked hall.now.catalogue job.now
        (workers_of S.told S.faults S.gave crew.old.items) (workers_of S.told S.faults S.gave crew.new.items) (tallies_of crew.new.items) }
    ensures shared { AreShared sheet.now (hands_of (workers_of S.told S.faults S.gave crew.new.items)) (total_of (tallies_of crew.new.items)).places }
    ensures ended { SeesEnd sheet.now (total_of (tallies_of crew.new.items)).done (total_of (tallies_of crew.new.items)).failed (total_of (tallies_of crew.new.items)).unkept result }
    ensures room { vec_capacity crew.new ≡ vec_capacity crew.old }
{
    let CrewEnd { total: _, watch } = run_seed(rt, alloc, hall, job, sheet, crew.as_mut_slice());
    let Some(watch) = watch else { unreachable!() };
    watch
}

/// Runs a job by the last members that are idle, one for each hand of its sheet, who are idle again then. The answer is a watch of the sheet
/// that has seen the end.
pub(crate) fn run_by_crew<
    R: Threads + Wait + Sync,
    K: Keeper + Send,
    S: Source + Send,
    G: JobGate + Send,
>(
    rt: &R,
    alloc: Global,
    hall: &Hall<K>,
    job: &Job,
    sheet: &JobSheet,
    hands: Vec<Hand>,
    idle: &mut Vec<IdleMember<K, S, G>>,
    crew: &mut Vec<Member<K, S, G>>,
) -> Hand
    requires valid { IsValid hall.now.catalogue }
    requires fits { Fits hall.now.catalogue job.now }
    requires sheet { sheet.now.places ≡ length (places hall.now.catalogue job.now) }
    requires some { 0 < length hands.items }
    requires few { length hands.items ≤ 8 }
    requires fresh { AreFresh sheet.now hands.items }
    requires idle { All (MayJoin hall.now.turnstile.table hall.now.catalogue) (all_idle S.told S.faults S.gave idle.old.items) }
    requires members { (length idle.old.items ≡ 8) × (8 ≤ vec_capacity idle.old) }
    requires room { (crew.old.items ≡ []) × (vec_capacity crew.old ≡ 8) }
    ensures run { (r : IsJobRunByCrew hall.now.catalogue job.now sheet.now hands.items (all_idle S.told S.faults S.gave idle.old.items) (all_idle S.told S.faults S.gave idle.new.items))
        × SeesEnd sheet.now (total_of r.tallies).done (total_of r.tallies).failed (total_of r.tallies).unkept result }
    ensures idle { All (MayJoin hall.now.turnstile.table hall.now.catalogue) (all_idle S.told S.faults S.gave idle.new.items) }
    ensures members { (length idle.new.items ≡ 8) × (8 ≤ vec_capacity idle.new) }
    ensures room { (crew.new.items ≡ []) × (vec_capacity crew.new ≡ 8) }
{
    assemble(hands, idle, crew);
    let watch = crew_works(rt, alloc, hall, job, sheet, crew);
    disband(crew, idle);
    watch
}
