//! How posted jobs are run, one after the other.
ghost use Rattle.std.specs.Prelude.{All, length, true, vec_capacity, [], ◌≡◌, ◌≤◌, ◌↔◌};
ghost use Rattle.catalog.specs.Valid.{IsValid};
ghost use Rattle.job_board.specs.Boards.{HasNumber};
ghost use Rattle.job_board.specs.Calls.{IsBoardPass};
ghost use Rattle.seed_jobs.specs.Idles.{IsStandbyReady, MayJoin, all_idle};
ghost use Rattle.seed_jobs.specs.Runs.{HasRunOut, IsRunnable, RunsAll, RunsNext};

use crate::crews::run_by_crew;
use crate::gates::JobGate;
use crate::member::Member;
use crate::runner::{IdleMember, Runner};
use cabinet::Keeper;
use cache_hall::Hall;
use catalog::Catalogue;
use job_board::{Board, BoardPass, Posted, WatchedJob};
use job_forms::{count, fits};
use source_render::Source;
use std::alloc::Global;
use std::sync::Wait;
use std::sync::atomic::{AtomicBool, Ordering};
use std::thread::Threads;

/// Whether a posted job can be run over a catalogue: it fits, its sheet has the job's places, and there is a hand for each of its threads.
fn is_runnable(catalogue: &Catalogue, posted: &Posted) -> bool
    requires { IsValid catalogue.now }
    ensures { (result ≡ true) ↔ IsRunnable catalogue.now posted.now }
{
    if !fits(catalogue, &posted.job) {
        return false;
    }
    if posted.sheet.places() != count(catalogue, &posted.job) {
        return false;
    }
    posted.hands.len() == posted.job.threads as usize
}

/// Runs a posted job by the last members that are idle, who are idle again then, and tells the board of its end. A job that can't be run over
/// the hall's catalogue is left.
#[tactic(auto, using(crate::proofs::History::left_out))]
fn run_posted<R: Threads + Wait + Sync, K: Keeper + Send, S: Source + Send, G: JobGate + Send>(
    rt: &R,
    alloc: Global,
    hall: &Hall<K>,
    board: &Board,
    pass: &mut BoardPass,
    posted: Posted,
    idle: &mut Vec<IdleMember<K, S, G>>,
    crew: &mut Vec<Member<K, S, G>>,
)
    requires valid { IsValid hall.now.catalogue }
    requires of { IsBoardPass board.now.turnstile.table pass.old }
    requires number { HasNumber pass.old.book.front posted }
    requires idle { All (MayJoin hall.now.turnstile.table hall.now.catalogue) (all_idle S.told S.faults S.gave idle.old.items) }
    requires members { (length idle.old.items ≡ 8) × (8 ≤ vec_capacity idle.old) }
    requires room { (crew.old.items ≡ []) × (vec_capacity crew.old ≡ 8) }
    ensures of { IsBoardPass board.now.turnstile.table pass.new }
    ensures runs { HasRunOut hall.now.catalogue posted pass.old pass.new (all_idle S.told S.faults S.gave idle.old.items) (all_idle S.told S.faults S.gave idle.new.items) }
    ensures idle { All (MayJoin hall.now.turnstile.table hall.now.catalogue) (all_idle S.told S.faults S.gave idle.new.items) }
    ensures members { (length idle.new.items ≡ 8) × (8 ≤ vec_capacity idle.new) }
    ensures room { (crew.new.items ≡ []) × (vec_capacity crew.new ≡ 8) }
{
    if !is_runnable(&hall.catalogue, &posted) {
        return;
    }
    let Posted {
        number,
        job,
        sheet,
        hands,
    } = posted;
    let watch = run_by_crew(rt, alloc, hall, &job, &sheet, hands, idle, crew);
    let _ = board.finish(rt, pass, number, WatchedJob { sheet, watch });
}

/// Takes the next job of a board, if one waits, runs it, tells the board of its end, and says whether one was taken.
fn run_next<R: Threads + Wait + Sync, K: Keeper + Send, S: Source + Send, G: JobGate + Send>(
    rt: &R,
    alloc: Global,
    hall: &Hall<K>,
    board: &Board,
    runner: &mut Runner<K, S, G>,
) -> bool
    requires valid { IsValid hall.now.catalogue }
    requires ready { IsStandbyReady board.now.turnstile.table hall.now.turnstile.table hall.now.catalogue runner.old }
    ensures ready { IsStandbyReady board.now.turnstile.table hall.now.turnstile.table hall.now.catalogue runner.new }
    ensures next { RunsNext hall.now.catalogue runner.old runner.new result }
{
    match board.next(rt, &mut runner.board) {
        Some(posted) => {
            run_posted(
                rt,
                alloc,
                hall,
                board,
                &mut runner.board,
                posted,
                &mut runner.idle,
                &mut runner.crew,
            );
            true
        }
        None => false,
    }
}

/// Takes jobs from a board, runs each by a crew of as many members as it has threads, and tells the board of its end, and sleeps while none
/// waits. It returns where it is over and no job waits any more. To be woken by `wake` of the board where it is over.
pub fn run_jobs<R: Threads + Wait + Sync, K: Keeper + Send, S: Source + Send, G: JobGate + Send>(
    rt: &R,
    alloc: Global,
    hall: &Hall<K>,
    board: &Board,
    is_over: &AtomicBool,
    runner: &mut Runner<K, S, G>,
)
    requires valid { IsValid hall.now.catalogue }
    requires ready { IsStandbyReady board.now.turnstile.table hall.now.turnstile.table hall.now.catalogue runner.old }
    ensures ready { IsStandbyReady board.now.turnstile.table hall.now.turnstile.table hall.now.catalogue runner.new }
    ensures runs { RunsAll hall.now.catalogue runner.old runner.new }
{
    'running: for _ in rt.forever() {
        let heard = board.changes();
        let ends = is_over.load(Ordering::SeqCst);
        if !run_next(rt, alloc, hall, board, runner) {
            if ends {
                return;
            }
            board.rest(rt, heard);
        }
    }
    unreachable!()
}
