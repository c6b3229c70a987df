//! The bytes that were read of a connection and aren't answered, and the message at their front.
ghost use Rattle.std.specs.Prelude.{◌≡◌, ◌≤◌, ◌+◌, ◌-◌, ◌++◌, ◌==◌, min, take, drop, length, false, IfOk, OnOk, OnErr, []};
ghost use Rattle.tcp_lanes.specs.Intakes.{waiting, at_hand, given_more, IsSearched, HoldsNone, HasNone, LooksAs, SearchesAs};

use crate::limits::{LOOKING, READ_SIZE};
use crate::message_ends::{MessageEnd, may_end_head, message_end};
use http_wire::HEAD_LIMIT;
use std::alloc::{AllocError, Global};
use std::marker::Model;

/// What stands at the front of the bytes.
#[derive(Clone, Copy, PartialEq, Eq)]
pub enum Front {
    /// A whole message.
    Whole,
    /// No message, whatever follows.
    Hopeless,
}

/// The bytes that were read and aren't answered. Contracts see them, how many at their front are at hand, and how many of these
/// were given.
#[derive(Drop)]
pub struct Intake {
    held: Vec<u8>,
    /// How many of them are the message at hand.
    message: usize,
    given: usize,
    /// How many of them were searched, in which no head is.
    searched: usize,
    /// How many bytes the looks for the head of the next message have cost.
    spent: usize,
    /// How many bytes the next message has, where its head is there; 0 where not.
    needed: usize,
}

impl Model for Intake {
    ghost use Rattle.std.specs.Prelude.{◌≡◌, ◌≤◌, length};
    ghost use Rattle.tcp_lanes.specs.Intakes.{Taken, IsSearched};

    ghost Value = { Taken };

    ghost view = { λ i. record { bytes = i.held.items; at_hand = i.message; given = i.given } };

    ghost invariant = { λ i. (i.message ≤ length i.held.items) × (i.message ≡ 0 → IsSearched i.held.items i.searched i.needed) };
}

/// Takes so many bytes away from the front.
fn drop_front(held: &mut Vec<u8>, count: usize)
    requires { count ≤ length held.old.items }
    ensures { held.new.items ≡ drop count held.old.items }
{
    let left = held.len() - count;
    held.copy_within(count.., 0);
    held.truncate(left);
}

/// Whether to look: the body is there that is needed, or a head may end in the new bytes or has no room left. A look costs as
/// much as the bytes are many, so that pieces of one byte would cost the square of their number; until the looks for one head
/// have cost their limit each piece is looked at all the same, since it may make the bytes hopeless.
fn is_worth_a_look(held: &[u8], searched: usize, spent: usize, needed: usize) -> bool
    ensures { result ≡ false → IsSearched held.now searched needed → HoldsNone held.now needed }
{
    if needed > held.len() {
        return false;
    }
    if needed > 0 {
        return true;
    }
    if may_end_head(held, searched) {
        return true;
    }
    held.len() > searched && (spent < LOOKING || held.len() >= HEAD_LIMIT)
}

impl Intake {
    /// No bytes. `AllocError` where memory runs out.
    pub fn new(alloc: Global) -> Result<Intake, AllocError>
        ensures { IfOk result (λ intake. intake ≡ waiting []) }
    {
        Ok(Intake {
            held: Vec::with_capacity(alloc, READ_SIZE)?,
            message: 0,
            given: 0,
            searched: 0,
            spent: 0,
            needed: 0,
        })
    }

    /// Whether there are none.
    pub fn is_empty(&self) -> bool
        ensures { result ≡ (length self.now.bytes == 0) }
    {
        self.held.is_empty()
    }

    /// Whether there are some that weren't searched, in which a message may be whole.
    pub fn has_new(&self) -> bool
        ensures { result ≡ false → HasNone self.now }
    {
        self.held.len() > self.searched
    }

    /// Puts these behind them. `AllocError` where memory runs out, and then none is added.
    pub fn add(&mut self, bytes: &[u8]) -> Result<(), AllocError>
        ensures added { OnOk result (self.new ≡ record { bytes = self.old.bytes ++ bytes.now; at_hand = self.old.at_hand; given = self.old.given }) }
        ensures kept { OnErr result (self.new ≡ self.old) }
    {
        self.held.extend_from_slice(bytes)
    }
}

// Searching.
impl Intake {
    /// Searches for the next message, where a look may find its end or is cheap. What it finds is at hand. It misses no whole message.
    pub fn find(&mut self) -> Option<Front>
        ensures { SearchesAs self.old self.new result }
    {
        if is_worth_a_look(self.held.as_slice(), self.searched, self.spent, self.needed) {
            return self.look();
        }
        self.searched = self.held.len();
        None
    }

    /// Looks for the next message. What it finds is at hand. It finds none only where a message may still become whole.
    pub fn look(&mut self) -> Option<Front>
        ensures { LooksAs self.old self.new result }
    {
        self.searched = self.held.len();
        self.spent = self.spent.saturating_add(self.searched);
        match message_end(self.held.as_slice()) {
            MessageEnd::Whole(size) => {
                self.message = size;
                Some(Front::Whole)
            }
            MessageEnd::Headless => None,
            MessageEnd::Short(size) => {
                self.needed = size;
                None
            }
            MessageEnd::Hopeless => {
                self.message = self.searched;
                Some(Front::Hopeless)
            }
        }
    }
}

// Giving.
impl Intake {
    /// Puts all bytes at hand, as they are.
    pub fn take_all(&mut self)
        ensures { self.new ≡ at_hand (length self.old.bytes) self.old }
    {
        self.message = self.held.len();
    }

    /// Gives the next bytes that are at hand, and answers how many: none behind them.
    pub fn give(&mut self, into: &mut [u8]) -> usize
        ensures within { result ≤ length into.new }
        ensures count { result ≡ min (length into.old) (self.old.at_hand - self.old.given) }
        ensures bytes { into.new ≡ take result (drop self.old.given self.old.bytes) ++ drop result into.old }
        ensures given { self.new ≡ given_more result self.old }
    {
        let Some(rest) = self.held.get(self.given..self.message) else {
            return 0;
        };
        let count = rest.len().min(into.len());
        into[..count].copy_from_slice(&rest[..count]);
        self.given += count;
        count
    }

    /// Lets the bytes go that are at hand, and the room of a long message. What stands behind them is searched for a next one.
    pub fn let_go(&mut self)
        ensures { self.new ≡ waiting (drop self.old.at_hand self.old.bytes) }
    {
        drop_front(&mut self.held, self.message);
        self.held.shrink_to(HEAD_LIMIT);
        self.message = 0;
        self.given = 0;
        self.searched = 0;
        self.spent = 0;
        self.needed = 0;
    }
}
