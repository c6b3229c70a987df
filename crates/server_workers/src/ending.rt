//! How the workers of a server end, and its hall.
ghost use Rattle.std.specs.Prelude.{All, length, vec_capacity, [], ◌+◌, ◌<◌, ◌≡◌, ◌≤◌};
ghost use Rattle.cache_hall.specs.Turned.{HallPass};
ghost use Rattle.catalog.specs.Valid.{IsValid};
ghost use Rattle.crossbeam_queue.specs.Passes.{view};
ghost use Rattle.layer_recipes.specs.Books.{IsBookOf};
ghost use Rattle.link_queue.specs.Hands.{IsHand, all_parts, hand, table_of};
ghost use Rattle.seed_jobs.specs.Idles as idles;
ghost use Rattle.server_workers.specs.Crew.{AreServedBy, HasGathered};
ghost use Rattle.server_workers.specs.Stints.{Service};
ghost use Rattle.server_workers.specs.Workers.{HasServedSince, HaveServedSince, MayAllServe, MayServe, place_of, service_of, worker_of};
ghost use Rattle.turnstile.specs.Line.{AreInLine};

use crate::crew::Worker;
use crate::workers::work;
use cabinet::Keeper;
use cabinet_chest::CabinetChest;
use hall_sessions::World;
use http_wire::Link;
use link_queue::{LinkHand, LinkQueue};
use seed_jobs::{JobGate, Runner};
use source_render::Source;
use std::alloc::Global;
use std::sync::Wait;
use turnstile::Pass;

/// A worker takes over the hands of others, whose passes are put here, and who runs jobs hears what those know of the board.
fn gather<K: Keeper, S: Source, L: Link, G: JobGate>(
    world: &World<K>,
    queue: &LinkQueue<L>,
    last: &mut Worker<K, S, L>,
    others: Vec<Worker<K, S, L>>,
    passes: &mut Vec<Pass<CabinetChest<K>>>,
    runner: &mut Runner<K, S, G>,
)
    requires empty { passes.old.items ≡ [] }
    requires room { length others.items ≤ vec_capacity passes.old }
    requires last { MayServe (place_of world.now (table_of queue.now.links)) (worker_of S.told last.old) }
    requires others { MayAllServe S.told (place_of world.now (table_of queue.now.links)) others.items }
    requires runner { idles.IsStandbyReady world.now.board.turnstile.table world.now.hall.turnstile.table world.now.hall.catalogue runner.old }
    ensures ready { MayServe (place_of world.now (table_of queue.now.links)) (worker_of S.told last.new) }
    ensures of { All (λ p. p.table ≡ world.now.hall.turnstile.table) passes.new.items }
    ensures count { length passes.new.items ≡ length others.items }
    ensures room { vec_capacity passes.new ≡ vec_capacity passes.old }
    ensures gathered { (s : Service L S) → HasServedSince s (hand 1 [] []) (worker_of S.told last.old)
        → HaveServedSince S.told s (hand 1 [] []) others.items
        → HasGathered s (1 + length others.items) last.new.pass last.new.board last.new.source last.new.hand passes.new.items runner.old runner.new }
    ensures runner { idles.IsStandbyReady world.now.board.turnstile.table world.now.hall.turnstile.table world.now.hall.catalogue runner.new }
{
    let mut others = others;
    'gathering: while let Some(other) = others.pop() {
        let Worker {
            pass,
            mut board,
            hand,
            source: _,
        } = other;
        queue.take_over(&mut last.hand, hand);
        runner.hear(&world.board, &mut board);
        passes.push_reserved(pass);
    }
}

/// The last worker takes over all hands at the queue, and serves what is left there; who runs jobs hears what all workers know of the
/// board. The passes of all workers are put into a list that has room for them.
pub(crate) fn serve_rest<R: Wait + std::time::Clock, K: Keeper, S: Source, L: Link, G: JobGate>(
    rt: &R,
    alloc: Global,
    world: &World<K>,
    queue: &LinkQueue<L>,
    mine: LinkHand<L>,
    workers: Vec<Worker<K, S, L>>,
    passes: Vec<Pass<CabinetChest<K>>>,
    runner: &mut Runner<K, S, G>,
) -> Vec<Pass<CabinetChest<K>>>
    requires empty { passes.items ≡ [] }
    requires room { length workers.items ≤ vec_capacity passes }
    requires valid { IsValid world.now.hall.catalogue }
    requires some { 0 < length workers.items }
    requires mine { IsHand (table_of queue.now.links) (view mine) mine }
    requires none { (view mine).taken ≡ [] }
    requires parts { (view mine).parts + length workers.items ≡ all_parts }
    requires ready { MayAllServe S.told (place_of world.now (table_of queue.now.links)) workers.items }
    requires runner { idles.IsStandbyReady world.now.board.turnstile.table world.now.hall.turnstile.table world.now.hall.catalogue runner.old }
    requires book { IsBookOf world.now.hall.catalogue world.now.recipes }
    ensures of { All (λ p. p.table ≡ world.now.hall.turnstile.table) result.items }
    ensures count { length result.items ≡ length workers.items }
    ensures room { vec_capacity result ≡ vec_capacity passes }
    ensures served { (first : HallPass)
        → HaveServedSince S.told (service_of L.left L.taken L.ByteSource.faults L.ByteSink.faults S.faults S.gave world.now first) (hand 1 [] []) workers.items
        → AreServedBy (service_of L.left L.taken L.ByteSource.faults L.ByteSink.faults S.faults S.gave world.now first) (view mine).put result.items runner.old runner.new }
    ensures runner { idles.IsStandbyReady world.now.board.turnstile.table world.now.hall.turnstile.table world.now.hall.catalogue runner.new }
{
    let mut workers = workers;
    let Some(last) = workers.pop() else {
        unreachable!()
    };
    let mut last = last;
    let mut passes = passes;
    gather(world, queue, &mut last, workers, &mut passes, runner);
    queue.take_over(&mut last.hand, mine);
    work(rt, alloc, world, queue, &mut last);
    let Worker {
        pass,
        mut board,
        hand: _,
        source: _,
    } = last;
    runner.hear(&world.board, &mut board);
    passes.push_reserved(pass);
    passes
}

/// Closes the hall, to which all passes have come back: all turns that they made stand in one line. The cabinet is dropped, and with it the
/// disk is left.
pub(crate) fn close<K: Keeper>(world: World<K>, passes: Vec<Pass<CabinetChest<K>>>)
    requires of { All (λ p. p.table ≡ world.hall.turnstile.table) passes.items }
    requires all { length passes.items ≡ world.hall.turnstile.passes }
    ensures { AreInLine passes.items }
{
    let World {
        hall,
        tables: _,
        capabilities: _,
        board: _,
        traffic: _,
        recipes: _,
    } = world;
    match hall.close(passes) {
        Ok(cabinet) => drop(cabinet),
        Err(_) => unreachable!(),
    }
}
