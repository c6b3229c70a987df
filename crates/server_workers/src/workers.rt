//! How a worker serves links, one after the other.
ghost use Rattle.std.specs.Prelude.{◌≡◌};
ghost use Rattle.cache_hall.specs.Turned.{HallPass};
ghost use Rattle.catalog.specs.Valid.{IsValid};
ghost use Rattle.crossbeam_queue.specs.Passes.{view};
ghost use Rattle.layer_recipes.specs.Books.{IsBookOf};
ghost use Rattle.link_queue.specs.Hands.{IsEven, all_parts, table_of};
ghost use Rattle.link_queue.specs.declared.hand.QueueHand.{QueueHand};
ghost use Rattle.server_workers.specs.Workers.{HasServedSince, MayServe, place_of, service_of, worker_of};

use crate::crew::Worker;
use cabinet::Keeper;
use hall_sessions::{World, serve_session};
use http_wire::{Link, MessageReader};
use link_queue::LinkQueue;
use source_render::Source;
use std::alloc::Global;
use std::sync::Wait;
use std::thread;
use std::time::{Clock, Duration};

/// How often a worker looks whether there is memory for a session before it takes a link all the same.
const LOOKS: u32 = 100;

/// How many milliseconds lie between two such looks.
const PAUSE: u64 = 50;

/// Waits a while until there is memory for the reader of a session, and takes it. So no link is taken, and used up, that can't be served
/// for want of memory: it is let go right before the session takes as much.
fn spare_reader<R: Clock>(rt: &R, alloc: Global) -> Option<MessageReader> {
    for _ in 0..LOOKS {
        if let Ok(reader) = MessageReader::new(alloc) {
            return Some(reader);
        }
        thread::sleep(rt, Duration::from_millis(PAUSE));
    }
    None
}

/// Serves links until no more come. How a session ended is its link's matter alone. A worker that is alone at the queue has then taken
/// all that it has put there.
pub(crate) fn work<R: Wait + Clock, K: Keeper, S: Source, L: Link>(
    rt: &R,
    alloc: Global,
    world: &World<K>,
    queue: &LinkQueue<L>,
    worker: &mut Worker<K, S, L>,
)
    requires valid { IsValid world.now.hall.catalogue }
    requires ready { MayServe (place_of world.now (table_of queue.now.links)) (worker_of S.told worker.old) }
    requires book { IsBookOf world.now.hall.catalogue world.now.recipes }
    ensures ready { MayServe (place_of world.now (table_of queue.now.links)) (worker_of S.told worker.new) }
    ensures worked { (first : HallPass) (before : QueueHand L)
        → HasServedSince (service_of L.left L.taken L.ByteSource.faults L.ByteSink.faults S.faults S.gave world.now first) before (worker_of S.told worker.old)
        → HasServedSince (service_of L.left L.taken L.ByteSource.faults L.ByteSink.faults S.faults S.gave world.now first) before (worker_of S.told worker.new) }
    ensures all { (view worker.new.hand).parts ≡ all_parts → IsEven (view worker.new.hand) }
{
    'working: for _ in rt.forever() {
        let spare = spare_reader(rt, alloc);
        let Some(mut link) = queue.take(rt, &mut worker.hand) else {
            return;
        };
        drop(spare);
        let _ = serve_session(
            rt,
            alloc,
            world,
            &mut worker.pass,
            &mut worker.board,
            &mut worker.source,
            &mut link,
        );
        drop(link);
    }
    unreachable!()
}
