//! How links are accepted.
ghost use Rattle.std.specs.Prelude.{true, ◌<◌, ◌≡◌};
ghost use Rattle.crossbeam_queue.specs.Passes.{view};
ghost use Rattle.link_queue.specs.Accepted.{HasAccepted};
ghost use Rattle.link_queue.specs.Hands.{IsHand, table_of};

use crate::queue::{LinkHand, LinkQueue};
use http_wire::Listener;
use std::sync::Wait;

/// Accepts so many links, hands each in, and closes the listener and the queue. False where an accept failed; no further one was then made.
pub fn accept_all<R: Wait, N: Listener>(
    rt: &R,
    connections: u32,
    queue: &LinkQueue<N::L>,
    mine: &mut LinkHand<N::L>,
    listener: &mut N,
) -> bool
    requires mine { IsHand (table_of queue.now.links) (view mine.old) mine.old }
    requires parts { 0 < (view mine.old).parts }
    ensures accepted { HasAccepted (table_of queue.now.links) connections (view mine.old) mine.new (N.given listener.old) (N.given listener.new) (N.faults listener.old) (N.faults listener.new) result }
    ensures closed { N.closed listener.new ≡ true }
{
    let all = accept_each(rt, connections, queue, mine, listener);
    listener.close();
    queue.close(rt);
    all
}

/// Accepts so many links, and hands each in. False where an accept failed; no further one was then made.
fn accept_each<R: Wait, N: Listener>(
    rt: &R,
    connections: u32,
    queue: &LinkQueue<N::L>,
    mine: &mut LinkHand<N::L>,
    listener: &mut N,
) -> bool
    requires mine { IsHand (table_of queue.now.links) (view mine.old) mine.old }
    requires parts { 0 < (view mine.old).parts }
    ensures { HasAccepted (table_of queue.now.links) connections (view mine.old) mine.new (N.given listener.old) (N.given listener.new) (N.faults listener.old) (N.faults listener.new) result }
{
    'accepting: for _ in 0..connections {
        match listener.accept() {
            Ok(link) => queue.hand_in(rt, mine, link),
            Err(_) => return false,
        }
    }
    true
}
