//! The links of a listener, from the first one to the last.
ghost use Rattle.std.specs.Prelude.{All, IfErr, IfOk, Some, [], length, ◌≡◌};
ghost use Rattle.cache_hall.specs.Turned.{HallPass};
ghost use Rattle.catalog.specs.Valid.{IsValid};
ghost use Rattle.layer_recipes.specs.Books.{IsBookOf};
ghost use Rattle.link_queue.specs.Hands.{IsHand, all_parts, hand, table_of};
ghost use Rattle.server_workers.specs.Crew.{AreSupplies};
ghost use Rattle.server_workers.specs.Served.{HasEndedOver};
ghost use Rattle.server_workers.specs.Staged.{HasServedBy, IsSupplied};
ghost use Rattle.server_workers.specs.Stints.{serving};
ghost use Rattle.server_workers.specs.Workers.{service_of};
ghost use Rattle.sessions.specs.Outside.{counts};

use crate::crew::{Staff, Supplies, crew_of};
use crate::ending::close;
use crate::ends::ServiceEnd;
use crate::gates::paced_gates;
use crate::roll_call::can_make;
use crate::serving::{Served, serve_links};
use crate::stage::{BOARD_PASSES, PASSES, ReadyServer, SOURCES};
use cabinet::Keeper;
use hall_sessions::World;
use http_wire::Listener;
use link_queue::{LinkHand, LinkQueue};
use seed_jobs::Pace;
use source_render::Source;
use std::alloc::{AllocError, Global};
use std::sync::Wait;
use std::thread::Threads;

/// How many threads serve beside the one that accepts: the workers, the upkeep, who runs jobs, and those that these are made from.
const THREADS: u32 = 52;

/// Serves so many links of a listener over what was made ready, and closes its hall: workers serve each link to its end, 48 of them at a time, while quotas
/// are kept, uses are saved, and the jobs that messages submit are run, one after the other; where requests come, a job's crew rests
/// meanwhile. When the last link has been served all jobs that run or wait are cancelled, and it ends once each member is done with the
/// place that it is at. Everything that it needs besides the sessions and the work at jobs is taken before the first link. The supplies are
/// of a first pass, which has made nothing; of the pass that the caller names as theirs the end says what `HasEndedOver` has. Where not all
/// threads can be made at its begin it ends with `NoThreads`; one that can't be made after that may leave it waiting for ever.
pub fn serve_hall<
    R: Threads + Wait + std::time::Clock + Sync,
    K: Keeper + Send,
    S: Source + Send,
    N: Listener,
>(
    rt: &R,
    alloc: Global,
    connections: u32,
    stage: ReadyServer<K>,
    sources: Vec<S>,
    listener: &mut N,
) -> ServiceEnd
where
    N::L: Send,
    requires valid { IsValid stage.world.hall.catalogue }
    requires sources { length sources.items ≡ SOURCES }
    requires count { (length stage.passes.items ≡ PASSES) × (stage.world.hall.turnstile.passes ≡ PASSES) }
    requires boards { length stage.boards.items ≡ BOARD_PASSES }
    requires supplied { IsSupplied stage.world.hall.turnstile.table (service_of N.L.left N.L.taken N.L.ByteSource.faults N.L.ByteSink.faults S.faults S.gave stage.world) S.told stage.passes.items stage.boards.items sources.items }
    requires book { IsBookOf stage.world.hall.catalogue stage.world.recipes }
    ensures { (first : HallPass)
        → AreSupplies (service_of N.L.left N.L.taken N.L.ByteSource.faults N.L.ByteSink.faults S.faults S.gave stage.world first) S.told stage.passes.items stage.boards.items sources.items
        → HasEndedOver (service_of N.L.left N.L.taken N.L.ByteSource.faults N.L.ByteSink.faults S.faults S.gave stage.world first)
        (record { connections = connections; given_before = N.given listener.old; given_after = N.given listener.new; accepts = counts (N.faults listener.old) (N.faults listener.new) })
        (listener.new ≡ listener.old) result }
{
    if !can_make(rt, THREADS) {
        // What is large is dropped by a call, since the proof would else go through its parts.
        drop(stage);
        drop(sources);
        return ServiceEnd::NoThreads;
    }
    let ReadyServer {
        world,
        passes,
        boards,
    } = stage;
    let supplies = Supplies {
        passes,
        boards,
        sources,
    };
    let Ok(served) = serve_world(rt, alloc, connections, &world, supplies, listener) else {
        drop(world);
        return ServiceEnd::OutOfMemory;
    };
    let Served { all, passes } = served;
    close(world, passes);
    if all {
        ServiceEnd::Done
    } else {
        ServiceEnd::ListenFault
    }
}

/// Serves so many links of a listener over a world, by a crew that is made of these supplies. `AllocError` where memory runs out, before
/// the first link is asked for.
fn serve_world<
    R: Threads + Wait + std::time::Clock + Sync,
    K: Keeper + Send,
    S: Source + Send,
    N: Listener,
>(
    rt: &R,
    alloc: Global,
    connections: u32,
    world: &World<K>,
    supplies: Supplies<K, S>,
    listener: &mut N,
) -> Result<Served<K>, AllocError>
where
    N::L: Send,
    requires valid { IsValid world.now.hall.catalogue }
    requires passes { length supplies.passes.items ≡ PASSES }
    requires boards { length supplies.boards.items ≡ BOARD_PASSES }
    requires sources { length supplies.sources.items ≡ SOURCES }
    requires supplied { IsSupplied world.now.hall.turnstile.table (service_of N.L.left N.L.taken N.L.ByteSource.faults N.L.ByteSink.faults S.faults S.gave world.now) S.told supplies.passes.items supplies.boards.items supplies.sources.items }
    requires book { IsBookOf world.now.hall.catalogue world.now.recipes }
    ensures of { IfOk result (λ s. All (λ p. p.table ≡ world.now.hall.turnstile.table) s.passes.items) }
    ensures count { IfOk result (λ s. length s.passes.items ≡ PASSES) }
    ensures served { (first : HallPass) → first.charter ≡ Some world.now.hall.catalogue
        → AreSupplies (service_of N.L.left N.L.taken N.L.ByteSource.faults N.L.ByteSink.faults S.faults S.gave world.now first) S.told supplies.passes.items supplies.boards.items supplies.sources.items
        → IfOk result (λ s. HasServedBy (service_of N.L.left N.L.taken N.L.ByteSource.faults N.L.ByteSink.faults S.faults S.gave world.now first)
        (record { connections = connections; given_before = N.given listener.old; given_after = N.given listener.new; accepts = counts (N.faults listener.old) (N.faults listener.new) })
        s.passes.items s.all) }
    ensures stays { IfErr result (λ fault. listener.new ≡ listener.old) }
{
    let (queue, acceptor) = LinkQueue::new(alloc)?;
    let served = serve_queue(
        rt,
        alloc,
        connections,
        world,
        &queue,
        acceptor,
        supplies,
        listener,
    );
    drop(queue);
    served
}

/// The same with a queue for the links.
fn serve_queue<
    R: Threads + Wait + std::time::Clock + Sync,
    K: Keeper + Send,
    S: Source + Send,
    N: Listener,
>(
    rt: &R,
    alloc: Global,
    connections: u32,
    world: &World<K>,
    queue: &LinkQueue<N::L>,
    acceptor: LinkHand<N::L>,
    supplies: Supplies<K, S>,
    listener: &mut N,
) -> Result<Served<K>, AllocError>
where
    N::L: Send,
    requires valid { IsValid world.now.hall.catalogue }
    requires passes { length supplies.passes.items ≡ PASSES }
    requires boards { length supplies.boards.items ≡ BOARD_PASSES }
    requires sources { length supplies.sources.items ≡ SOURCES }
    requires acceptor { IsHand (table_of queue.now.links) (hand all_parts [] []) acceptor }
    requires supplied { IsSupplied world.now.hall.turnstile.table (service_of N.L.left N.L.taken N.L.ByteSource.faults N.L.ByteSink.faults S.faults S.gave world.now) S.told supplies.passes.items supplies.boards.items supplies.sources.items }
    requires book { IsBookOf world.now.hall.catalogue world.now.recipes }
    ensures of { IfOk result (λ s. All (λ p. p.table ≡ world.now.hall.turnstile.table) s.passes.items) }
    ensures count { IfOk result (λ s. length s.passes.items ≡ PASSES) }
    ensures served { (first : HallPass) → first.charter ≡ Some world.now.hall.catalogue
        → AreSupplies (service_of N.L.left N.L.taken N.L.ByteSource.faults N.L.ByteSink.faults S.faults S.gave world.now first) S.told supplies.passes.items supplies.boards.items supplies.sources.items
        → IfOk result (λ s. HasServedBy (service_of N.L.left N.L.taken N.L.ByteSource.faults N.L.ByteSink.faults S.faults S.gave world.now first)
        (record { connections = connections; given_before = N.given listener.old; given_after = N.given listener.new; accepts = counts (N.faults listener.old) (N.faults listener.new) })
        s.passes.items s.all) }
    ensures stays { IfErr result (λ fault. listener.new ≡ listener.old) }
{
    let pace = Pace::new();
    let gates = paced_gates(rt, alloc, &world.traffic, &pace)?;
    let mut acceptor = acceptor;
    let crew = crew_of(alloc, queue, &mut acceptor, supplies, gates)?;
    let staff = Staff { crew, acceptor };
    let room = Vec::with_capacity(alloc, PASSES as usize)?;
    Ok(serve_links(rt, alloc, connections, world, queue, staff, room, listener))
}
