//! The queue in which links wait for workers, and the bells for those that wait at it.
ghost use Rattle.std.specs.Prelude.{[], IfNone, IfOk, MatchOption, ◌++◌, ◌-◌, ◌<◌, ◌≡◌};
ghost use Rattle.crossbeam_queue.specs.Passes.{view};
ghost use Rattle.link_queue.specs.Hands.{IsEven, IsHand, all_parts, hand, table_of, with_other, with_put, with_taken};

use crate::hand::{Fair, OneMore, Puts, QueueHand, Takes, TakesOver};
use base::Bell;
use crossbeam_queue::{Pass, RuledArrayQueue};
use std::alloc::{AllocError, Global};
use std::sync::Wait;
use std::sync::atomic::{AtomicBool, Ordering};

/// How many links wait at most.
const ROOM: usize = 4;

/// Where links wait for a worker, in the order in which they were given.
#[derive(Drop)]
pub struct LinkQueue<L: Drop> {
    pub links: RuledArrayQueue<L, QueueHand<L>, Fair>,
    /// Rung where a link came, and where no more come.
    came: Bell,
    /// Rung where a link was taken.
    taken: Bell,
    closed: AtomicBool,
}

/// A hand at such a queue: who has it may put links and take them. It has no bytes.
pub type LinkHand<L> = Pass<L, QueueHand<L>>;

impl<L: Drop> LinkQueue<L> {
    /// An empty queue, and the one hand at it. `AllocError` where memory runs out.
    pub fn new(alloc: Global) -> Result<(LinkQueue<L>, LinkHand<L>), AllocError>
        ensures { IfOk result (λ made. IsHand (table_of made.0.links) (hand all_parts [] []) made.1) }
    {
        let (links, first) = RuledArrayQueue::ruled(alloc, ROOM)?;
        let queue = LinkQueue {
            links,
            came: Bell::new(),
            taken: Bell::new(),
            closed: AtomicBool::new(false),
        };
        Ok((queue, first))
    }

    /// A further hand, which has put and taken nothing.
    pub fn one_more(&self, mine: &mut LinkHand<L>) -> LinkHand<L>
        requires mine { IsHand (table_of self.now.links) (view mine.old) mine.old }
        requires parts { 1 < (view mine.old).parts }
        ensures mine { IsHand (table_of self.now.links) (hand ((view mine.old).parts - 1) (view mine.old).put (view mine.old).taken) mine.new }
        ensures more { IsHand (table_of self.now.links) (hand 1 [] []) result }
    {
        self.links.another::<OneMore>(mine)
    }

    /// Takes over what another hand has put and taken.
    pub fn take_over(&self, mine: &mut LinkHand<L>, other: LinkHand<L>)
        requires mine { IsHand (table_of self.now.links) (view mine.old) mine.old }
        requires other { IsHand (table_of self.now.links) (view other) other }
        requires parts { 0 < (view mine.old).parts }
        ensures { IsHand (table_of self.now.links) (with_other (view mine.old) (view other)) mine.new }
    {
        self.links.absorb::<TakesOver>(mine, other);
    }

    /// Hands in a link, and sleeps while there is no room for it.
    pub fn hand_in<R: Wait>(&self, rt: &R, mine: &mut LinkHand<L>, link: L)
        requires mine { IsHand (table_of self.now.links) (view mine.old) mine.old }
        requires parts { 0 < (view mine.old).parts }
        ensures { IsHand (table_of self.now.links) (with_put (view mine.old) link) mine.new }
    {
        let mut link = link;
        'handing: for _ in rt.forever() {
            let heard = self.taken.rings();
            match self.links.push_as::<Puts, R>(rt, mine, link) {
                Ok(()) => {
                    self.came.ring_one(rt);
                    return;
                }
                Err(back) => {
                    link = back;
                    self.taken.sleep(rt, heard);
                }
            }
        }
        unreachable!()
    }

    /// Tells the workers that no more links come.
    pub fn close<R: Wait>(&self, rt: &R) {
        self.closed.store(true, Ordering::SeqCst);
        self.came.ring_all(rt);
    }

    /// Takes the first link, and sleeps while there is none. None where no more come; a hand that is alone at the queue has then taken
    /// all that it has put.
    pub fn take<R: Wait>(&self, rt: &R, mine: &mut LinkHand<L>) -> Option<L>
        requires mine { IsHand (table_of self.now.links) (view mine.old) mine.old }
        requires parts { 0 < (view mine.old).parts }
        ensures taken { MatchOption result (IsHand (table_of self.now.links) (view mine.old) mine.new) (λ link. IsHand (table_of self.now.links) (with_taken (view mine.old) link) mine.new) }
        ensures none { IfNone result ((view mine.old).parts ≡ all_parts → IsEven (view mine.old)) }
    {
        'taking: for _ in rt.forever() {
            let heard = self.came.rings();
            let closed = self.closed.load(Ordering::SeqCst);
            if let Some(link) = self.links.pop_as::<Takes, R>(rt, mine) {
                self.taken.ring_one(rt);
                return Some(link);
            }
            if closed {
                return None;
            }
            self.came.sleep(rt, heard);
        }
        unreachable!()
    }
}
