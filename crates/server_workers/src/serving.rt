//! The threads of a server.
ghost use Rattle.std.specs.List.{Contains};
ghost use Rattle.std.specs.Prelude.{All, MatchBool, [], length, vec_capacity, ◌+◌, ◌-◌, ◌<◌, ◌≡◌, ◌≤◌};
ghost use Rattle.cache_hall.specs.Turned.{HallPass, IsPassOf};
ghost use Rattle.catalog.specs.Valid.{IsValid};
ghost use Rattle.crossbeam_queue.specs.Passes.{view};
ghost use Rattle.job_board.specs.Calls.{IsBoardPass};
ghost use Rattle.layer_recipes.specs.Books.{IsBookOf};
ghost use Rattle.link_queue.specs.Accepted.{HasAccepted};
ghost use Rattle.link_queue.specs.Hands.{IsHand, all_parts, hand, table_of};
ghost use Rattle.link_queue.specs.declared.hand.QueueHand.{QueueHand};
ghost use Rattle.seed_jobs.specs.Idles as idles;
ghost use Rattle.seed_jobs.specs.Idles.{AreOfSources, passes_of};
ghost use Rattle.seed_jobs.specs.Runs.{RunsAll};
ghost use Rattle.server_workers.specs.Cancelled.{HasCancelledOn, HasStoppedTo};
ghost use Rattle.server_workers.specs.Crew.{HasServedLinks};
ghost use Rattle.server_workers.specs.Runners.{HasRunOn};
ghost use Rattle.server_workers.specs.Stints.{serving};
ghost use Rattle.server_workers.specs.Upkept.{HasKeptUp, IsKeptUpBy};
ghost use Rattle.server_workers.specs.Workers.{HasServedSince, HaveServedSince, MayAllServe, MayServe, place_of, service_of, worker_of};

use crate::cancelling::cancel_all;
use crate::crew::{Crew, Staff, WORKERS, Worker};
use crate::crossing::is_shared;
use crate::ending::serve_rest;
use crate::upkeep::{Shift, keep_up};
use crate::workers::work;
use cabinet::Keeper;
use cabinet_chest::CabinetChest;
use hall_sessions::World;
use http_wire::{Link, Listener};
use job_board::BoardPass;
use link_queue::{LinkQueue, accept_all};
use seed_jobs::{JobGate, MEMBERS, Runner, run_jobs};
use source_render::Source;
use std::alloc::Global;
use std::convert::identity;
use std::sync::Wait;
use std::sync::atomic::{AtomicBool, Ordering};
use std::thread::{Threads, for_each_mut, join_mut};
use tile_requests::Tables;
use turnstile::Pass;

/// Lets all workers serve until no more links come. Then all jobs are cancelled, and who runs them is told.
fn work_all<
    R: Threads + Wait + std::time::Clock + Sync,
    K: Keeper + Send,
    S: Source + Send,
    L: Link + Send,
>(
    rt: &R,
    alloc: Global,
    world: &World<K>,
    queue: &LinkQueue<L>,
    is_over: &AtomicBool,
    workers: &mut [Worker<K, S, L>],
    canceller: &mut BoardPass,
)
    requires valid { IsValid world.now.hall.catalogue }
    requires ready { MayAllServe S.told (place_of world.now (table_of queue.now.links)) workers.old }
    requires place { IsBoardPass world.now.board.turnstile.table canceller.old }
    requires book { IsBookOf world.now.hall.catalogue world.now.recipes }
    ensures ready { MayAllServe S.told (place_of world.now (table_of queue.now.links)) workers.new }
    ensures worked { (first : HallPass) (before : QueueHand L)
        → HaveServedSince S.told (service_of L.left L.taken L.ByteSource.faults L.ByteSink.faults S.faults S.gave world.now first) before workers.old
        → HaveServedSince S.told (service_of L.left L.taken L.ByteSource.faults L.ByteSink.faults S.faults S.gave world.now first) before workers.new }
    ensures place { IsBoardPass world.now.board.turnstile.table canceller.new }
    ensures stops { HasStoppedTo 1024 canceller.old canceller.new }
{
    is_shared::<Tables>();
    for_each_mut(
        rt,
        workers,
        WORKERS,
        &|_, worker: &mut Worker<K, S, L>|
            requires { IsValid world.now.hall.catalogue × MayServe (place_of world.now (table_of queue.now.links)) (worker_of S.told worker.now) × IsBookOf world.now.hall.catalogue world.now.recipes }
            ensures ready { MayServe (place_of world.entry.now (table_of queue.entry.now.links)) (worker_of S.told worker.exit.now) }
            ensures worked { (first : HallPass) (before : QueueHand L)
                → HasServedSince (service_of L.left L.taken L.ByteSource.faults L.ByteSink.faults S.faults S.gave world.entry.now first) before (worker_of S.told worker.entry.now)
                → HasServedSince (service_of L.left L.taken L.ByteSource.faults L.ByteSink.faults S.faults S.gave world.entry.now first) before (worker_of S.told worker.exit.now) }
        { work(rt, alloc, world, queue, worker) },
    );
    is_over.store(true, Ordering::SeqCst);
    cancel_all(rt, &world.board, canceller);
    world.board.wake(rt);
}

/// Serves links until no more come, and runs jobs until then, where all are cancelled; then ends the upkeep.
#[tactic(auto, using(crate::proofs::Shared::world_sync))]
fn work_and_run<
    R: Threads + Wait + std::time::Clock + Sync,
    K: Keeper + Send,
    S: Source + Send,
    L: Link + Send,
    G: JobGate + Send,
>(
    rt: &R,
    alloc: Global,
    world: &World<K>,
    queue: &LinkQueue<L>,
    upkeep: &Shift,
    workers: &mut [Worker<K, S, L>],
    runner: &mut Runner<K, S, G>,
    canceller: &mut BoardPass,
)
    requires valid { IsValid world.now.hall.catalogue }
    requires ready { MayAllServe S.told (place_of world.now (table_of queue.now.links)) workers.old }
    requires runner { idles.IsStandbyReady world.now.board.turnstile.table world.now.hall.turnstile.table world.now.hall.catalogue runner.old }
    requires place { IsBoardPass world.now.board.turnstile.table canceller.old }
    requires book { IsBookOf world.now.hall.catalogue world.now.recipes }
    ensures ready { MayAllServe S.told (place_of world.now (table_of queue.now.links)) workers.new }
    ensures runner { idles.IsStandbyReady world.now.board.turnstile.table world.now.hall.turnstile.table world.now.hall.catalogue runner.new }
    ensures runs { RunsAll world.now.hall.catalogue runner.old runner.new }
    ensures worked { (first : HallPass) (before : QueueHand L)
        → HaveServedSince S.told (service_of L.left L.taken L.ByteSource.faults L.ByteSink.faults S.faults S.gave world.now first) before workers.old
        → HaveServedSince S.told (service_of L.left L.taken L.ByteSource.faults L.ByteSink.faults S.faults S.gave world.now first) before workers.new }
    ensures place { IsBoardPass world.now.board.turnstile.table canceller.new }
    ensures stops { HasStoppedTo 1024 canceller.old canceller.new }
{
    is_shared::<Tables>();
    let is_over = AtomicBool::new(false);
    let is_over = &is_over;
    // Each is lent on by a call, so that what a thread borrows is a variable of its own.
    let workers = identity(workers);
    let runner = identity(runner);
    let canceller = identity(canceller);
    let ((), ()) = join_mut(
        rt,
        &mut ||
            requires { IsValid world.now.hall.catalogue × idles.IsStandbyReady world.now.board.turnstile.table world.now.hall.turnstile.table world.now.hall.catalogue runner.now }
            ensures ready { idles.IsStandbyReady world.entry.now.board.turnstile.table world.entry.now.hall.turnstile.table world.entry.now.hall.catalogue runner.exit.now }
            ensures runs { RunsAll world.entry.now.hall.catalogue runner.entry.now runner.exit.now }
        { run_jobs(rt, alloc, &world.hall, &world.board, is_over, runner) },
        &mut ||
            requires { IsValid world.now.hall.catalogue × MayAllServe S.told (place_of world.now (table_of queue.now.links)) workers.now × IsBoardPass world.now.board.turnstile.table canceller.now × IsBookOf world.now.hall.catalogue world.now.recipes }
            ensures ready { MayAllServe S.told (place_of world.entry.now (table_of queue.entry.now.links)) workers.exit.now }
            ensures worked { (first : HallPass) (before : QueueHand L)
                → HaveServedSince S.told (service_of L.left L.taken L.ByteSource.faults L.ByteSink.faults S.faults S.gave world.entry.now first) before workers.entry.now
                → HaveServedSince S.told (service_of L.left L.taken L.ByteSource.faults L.ByteSink.faults S.faults S.gave world.entry.now first) before workers.exit.now }
            ensures place { IsBoardPass world.entry.now.board.turnstile.table canceller.exit.now }
            ensures stops { HasStoppedTo 1024 canceller.entry.now canceller.exit.now }
        { work_all(rt, alloc, world, queue, is_over, workers, canceller) },
    );
    upkeep.end();
    world.hall.wake(rt);
}

/// Serves links until no more come, and runs jobs and keeps the cache up meanwhile.
#[tactic(auto, using(crate::proofs::Shared::world_sync))]
fn serve_all<
    R: Threads + Wait + std::time::Clock + Sync,
    K: Keeper + Send,
    S: Source + Send,
    L: Link + Send,
    G: JobGate + Send,
>(rt: &R, alloc: Global, world: &World<K>, queue: &LinkQueue<L>, crew: &mut Crew<K, S, L, G>)
    requires valid { IsValid world.now.hall.catalogue }
    requires ready { MayAllServe S.told (place_of world.now (table_of queue.now.links)) crew.old.workers.items }
    requires upkeep { IsPassOf world.now.hall.turnstile.table world.now.hall.catalogue crew.old.upkeep }
    requires runner { idles.IsStandbyReady world.now.board.turnstile.table world.now.hall.turnstile.table world.now.hall.catalogue crew.old.runner }
    requires place { IsBoardPass world.now.board.turnstile.table crew.old.canceller }
    requires book { IsBookOf world.now.hall.catalogue world.now.recipes }
    ensures ready { MayAllServe S.told (place_of world.now (table_of queue.now.links)) crew.new.workers.items }
    ensures upkeep { IsPassOf world.now.hall.turnstile.table world.now.hall.catalogue crew.new.upkeep }
    ensures keeps { HasKeptUp world.now.hall.catalogue crew.old.upkeep crew.new.upkeep }
    ensures runner { idles.IsStandbyReady world.now.board.turnstile.table world.now.hall.turnstile.table world.now.hall.catalogue crew.new.runner }
    ensures runs { RunsAll world.now.hall.catalogue crew.old.runner crew.new.runner }
    ensures worked { (first : HallPass) (before : QueueHand L)
        → HaveServedSince S.told (service_of L.left L.taken L.ByteSource.faults L.ByteSink.faults S.faults S.gave world.now first) before crew.old.workers.items
        → HaveServedSince S.told (service_of L.left L.taken L.ByteSource.faults L.ByteSink.faults S.faults S.gave world.now first) before crew.new.workers.items }
    ensures each { length crew.new.workers.items ≡ length crew.old.workers.items }
    ensures place { IsBoardPass world.now.board.turnstile.table crew.new.canceller }
    ensures stops { HasStoppedTo 1024 crew.old.canceller crew.new.canceller }
{
    is_shared::<Tables>();
    let shift = Shift::new();
    let shift = &shift;
    let Crew {
        workers,
        upkeep,
        runner,
        canceller,
    } = crew;
    let workers = workers.as_mut_slice();
    // As in `work_and_run`.
    let upkeep = identity(upkeep);
    let runner = identity(runner);
    let canceller = identity(canceller);
    let hall = &world.hall;
    let ((), ()) = join_mut(
        rt,
        &mut ||
            requires { IsPassOf hall.now.turnstile.table hall.now.catalogue upkeep.now }
            ensures of { IsPassOf hall.entry.now.turnstile.table hall.entry.now.catalogue upkeep.exit.now }
            ensures keeps { HasKeptUp hall.entry.now.catalogue upkeep.entry.now upkeep.exit.now }
        { keep_up(rt, hall, shift, upkeep) },
        &mut ||
            requires { IsValid world.now.hall.catalogue × MayAllServe S.told (place_of world.now (table_of queue.now.links)) workers.now × idles.IsStandbyReady world.now.board.turnstile.table world.now.hall.turnstile.table world.now.hall.catalogue runner.now × IsBoardPass world.now.board.turnstile.table canceller.now × IsBookOf world.now.hall.catalogue world.now.recipes }
            ensures ready { MayAllServe S.told (place_of world.entry.now (table_of queue.entry.now.links)) workers.exit.now }
            ensures runner { idles.IsStandbyReady world.entry.now.board.turnstile.table world.entry.now.hall.turnstile.table world.entry.now.hall.catalogue runner.exit.now }
            ensures runs { RunsAll world.entry.now.hall.catalogue runner.entry.now runner.exit.now }
            ensures worked { (first : HallPass) (before : QueueHand L)
                → HaveServedSince S.told (service_of L.left L.taken L.ByteSource.faults L.ByteSink.faults S.faults S.gave world.entry.now first) before workers.entry.now
                → HaveServedSince S.told (service_of L.left L.taken L.ByteSource.faults L.ByteSink.faults S.faults S.gave world.entry.now first) before workers.exit.now }
            ensures place { IsBoardPass world.entry.now.board.turnstile.table canceller.exit.now }
            ensures stops { HasStoppedTo 1024 canceller.entry.now canceller.exit.now }
        { work_and_run(rt, alloc, world, queue, shift, workers, runner, canceller) },
    );
}

/// Accepts so many links in this thread while others serve them. False where an accept failed.
#[tactic(auto, using(crate::proofs::Shared::world_sync))]
fn accept_and_serve<
    R: Threads + Wait + std::time::Clock + Sync,
    K: Keeper + Send,
    S: Source + Send,
    N: Listener,
    G: JobGate + Send,
>(
    rt: &R,
    alloc: Global,
    connections: u32,
    world: &World<K>,
    queue: &LinkQueue<N::L>,
    staff: &mut Staff<K, S, N::L, G>,
    listener: &mut N,
) -> bool
where
    N::L: Send,
    requires valid { IsValid world.now.hall.catalogue }
    requires ready { MayAllServe S.told (place_of world.now (table_of queue.now.links)) staff.old.crew.workers.items }
    requires upkeep { IsPassOf world.now.hall.turnstile.table world.now.hall.catalogue staff.old.crew.upkeep }
    requires runner { idles.IsStandbyReady world.now.board.turnstile.table world.now.hall.turnstile.table world.now.hall.catalogue staff.old.crew.runner }
    requires place { IsBoardPass world.now.board.turnstile.table staff.old.crew.canceller }
    requires acceptor { IsHand (table_of queue.now.links) (view staff.old.acceptor) staff.old.acceptor }
    requires parts { 0 < (view staff.old.acceptor).parts }
    requires book { IsBookOf world.now.hall.catalogue world.now.recipes }
    ensures accepted { HasAccepted (table_of queue.now.links) connections (view staff.old.acceptor) staff.new.acceptor (N.given listener.old) (N.given listener.new) (N.faults listener.old) (N.faults listener.new) result }
    ensures ready { MayAllServe S.told (place_of world.now (table_of queue.now.links)) staff.new.crew.workers.items }
    ensures upkeep { IsPassOf world.now.hall.turnstile.table world.now.hall.catalogue staff.new.crew.upkeep }
    ensures keeps { HasKeptUp world.now.hall.catalogue staff.old.crew.upkeep staff.new.crew.upkeep }
    ensures runner { idles.IsStandbyReady world.now.board.turnstile.table world.now.hall.turnstile.table world.now.hall.catalogue staff.new.crew.runner }
    ensures runs { RunsAll world.now.hall.catalogue staff.old.crew.runner staff.new.crew.runner }
    ensures each { length staff.new.crew.workers.items ≡ length staff.old.crew.workers.items }
    ensures place { IsBoardPass world.now.board.turnstile.table staff.new.crew.canceller }
    ensures stops { HasStoppedTo 1024 staff.old.crew.canceller staff.new.crew.canceller }
    ensures worked { (first : HallPass) (before : QueueHand N.L)
        → HaveServedSince S.told (service_of N.L.left N.L.taken N.L.ByteSource.faults N.L.ByteSink.faults S.faults S.gave world.now first) before staff.old.crew.workers.items
        → HaveServedSince S.told (service_of N.L.left N.L.taken N.L.ByteSource.faults N.L.ByteSink.faults S.faults S.gave world.now first) before staff.new.crew.workers.items }
{
    is_shared::<Tables>();
    let Staff { crew, acceptor } = staff;
    // As in `work_and_run`.
    let crew = identity(crew);
    let acceptor = identity(acceptor);
    let ((), all) = join_mut(
        rt,
        &mut ||
            requires { IsValid world.now.hall.catalogue × MayAllServe S.told (place_of world.now (table_of queue.now.links)) crew.now.workers.items × IsPassOf world.now.hall.turnstile.table world.now.hall.catalogue crew.now.upkeep × idles.IsStandbyReady world.now.board.turnstile.table world.now.hall.turnstile.table world.now.hall.catalogue crew.now.runner × IsBoardPass world.now.board.turnstile.table crew.now.canceller × IsBookOf world.now.hall.catalogue world.now.recipes }
            ensures ready { MayAllServe S.told (place_of world.entry.now (table_of queue.entry.now.links)) crew.exit.now.workers.items }
            ensures worked { (first : HallPass) (before : QueueHand N.L)
                → HaveServedSince S.told (service_of N.L.left N.L.taken N.L.ByteSource.faults N.L.ByteSink.faults S.faults S.gave world.entry.now first) before crew.entry.now.workers.items
                → HaveServedSince S.told (service_of N.L.left N.L.taken N.L.ByteSource.faults N.L.ByteSink.faults S.faults S.gave world.entry.now first) before crew.exit.now.workers.items }
            ensures upkeep { IsPassOf world.entry.now.hall.turnstile.table world.entry.now.hall.catalogue crew.exit.now.upkeep }
            ensures keeps { HasKeptUp world.entry.now.hall.catalogue crew.entry.now.upkeep crew.exit.now.upkeep }
            ensures runner { idles.IsStandbyReady world.entry.now.board.turnstile.table world.entry.now.hall.turnstile.table world.entry.now.hall.catalogue crew.exit.now.runner }
            ensures runs { RunsAll world.entry.now.hall.catalogue crew.entry.now.runner crew.exit.now.runner }
            ensures each { length crew.exit.now.workers.items ≡ length crew.entry.now.workers.items }
            ensures place { IsBoardPass world.entry.now.board.turnstile.table crew.exit.now.canceller }
            ensures stops { HasStoppedTo 1024 crew.entry.now.canceller crew.exit.now.canceller }
        { serve_all(rt, alloc, world, queue, crew) },
        &mut || -> bool
            requires { IsHand (table_of queue.now.links) (view acceptor.now) acceptor.now × (0 < (view acceptor.now).parts) }
            ensures { HasAccepted (table_of queue.entry.now.links) connections (view acceptor.entry.now) acceptor.exit.now (N.given listener.entry.now) (N.given listener.exit.now) (N.faults listener.entry.now) (N.faults listener.exit.now) result }
        { accept_all(rt, connections, queue, acceptor, listener) },
    );
    all
}

/// How the serving of links ended: whether no accept failed, and the passes of all that worked.
#[derive(Drop)]
pub(crate) struct Served<K: Keeper> {
    pub(crate) all: bool,
    pub(crate) passes: Vec<Pass<CabinetChest<K>>>,
}

/// Accepts so many links of a listener in this thread, while a crew serves them, and sees that each is served to its end. Jobs are run
/// meanwhile; then all that a session has submitted are cancelled, and run as far as that lets them. All passes come back in a list that has
/// room for them.
pub(crate) fn serve_links<
    R: Threads + Wait + std::time::Clock + Sync,
    K: Keeper + Send,
    S: Source + Send,
    N: Listener,
    G: JobGate + Send,
>(
    rt: &R,
    alloc: Global,
    connections: u32,
    world: &World<K>,
    queue: &LinkQueue<N::L>,
    staff: Staff<K, S, N::L, G>,
    passes: Vec<Pass<CabinetChest<K>>>,
    listener: &mut N,
) -> Served<K>
where
    N::L: Send,
    requires valid { IsValid world.now.hall.catalogue }
    requires ready { MayAllServe S.told (place_of world.now (table_of queue.now.links)) staff.crew.workers.items }
    requires upkeep { IsPassOf world.now.hall.turnstile.table world.now.hall.catalogue staff.crew.upkeep }
    requires runner { idles.IsStandbyReady world.now.board.turnstile.table world.now.hall.turnstile.table world.now.hall.catalogue staff.crew.runner }
    requires place { IsBoardPass world.now.board.turnstile.table staff.crew.canceller }
    requires each { length staff.crew.workers.items ≡ WORKERS }
    requires empty { passes.items ≡ [] }
    requires room { WORKERS + 1 + MEMBERS ≤ vec_capacity passes }
    requires acceptor { IsHand (table_of queue.now.links) (hand (all_parts - WORKERS) [] []) staff.acceptor }
    requires book { IsBookOf world.now.hall.catalogue world.now.recipes }
    ensures of { All (λ p. p.table ≡ world.now.hall.turnstile.table) result.passes.items }
    ensures count { length result.passes.items ≡ WORKERS + 1 + MEMBERS }
    ensures upkeep { IsKeptUpBy world.now.hall.catalogue staff.crew.upkeep result.passes.items }
    ensures served { (j : HasRunOn world.now.hall.catalogue staff.crew.runner) × (k : HasCancelledOn staff.crew.canceller) × ((p : HallPass) → Contains (passes_of j.after.idle) p → Contains result.passes.items p) × AreOfSources S.faults S.gave j.after.idle × ((first : HallPass)
        → HaveServedSince S.told (service_of N.L.left N.L.taken N.L.ByteSource.faults N.L.ByteSink.faults S.faults S.gave world.now first) (hand 1 [] []) staff.crew.workers.items
        → HasServedLinks (service_of N.L.left N.L.taken N.L.ByteSource.faults N.L.ByteSink.faults S.faults S.gave world.now first) connections (N.given listener.old) (N.given listener.new) (N.faults listener.old) (N.faults listener.new) result.passes.items j.between j.heard k.heard result.all) }
{
    let mut staff = staff;
    let all = accept_and_serve(rt, alloc, connections, world, queue, &mut staff, listener);
    let Staff { crew, acceptor } = staff;
    let Crew {
        workers,
        upkeep,
        runner,
        canceller,
    } = crew;
    let mut runner = runner;
    let mut canceller = canceller;
    let mut passes = serve_rest(
        rt,
        alloc,
        world,
        queue,
        acceptor,
        workers,
        passes,
        &mut runner,
    );
    runner.hear(&world.board, &mut canceller);
    cancel_all(rt, &world.board, &mut canceller);
    run_jobs(
        rt,
        alloc,
        &world.hall,
        &world.board,
        &AtomicBool::new(true),
        &mut runner,
    );
    passes.push_reserved(upkeep);
    Served {
        all,
        passes: runner.into_passes(passes),
    }
}
