//! A tournament of the entries of a map: which one goes first, kept through each change in a time that goes by the logarithm
//! of how many there are.
//!
//! Node `n` of a tree has the entry `n` of its own, and the nodes `2n + 1` and `2n + 2` right beneath it. It keeps the index of
//! the entry that goes first of its own and all those beneath, so node 0 has the first of all. A change of one entry is
//! settled by finding the winners of its node and of those above it anew, up to the first node that keeps its winner, where
//! that is another entry: nothing has changed for the nodes above it.
ghost use Rattle.std.specs.Prelude.{OnOk, length, slice_get, slice_index, vec_capacity, vec_len, ◌*◌, ◌+◌, ◌-◌, ◌<◌, ◌≡◌, ◌≤◌};
ghost use Rattle.expiry_policy.specs.Entries.{goes};
ghost use Rattle.expiry_policy.specs.Tournaments.{IsRanked, IsRankedUpTo, Wins, above, pick};

use crate::held::{Held, goes_before};
use crate::order::Order;
use std::alloc::{AllocError, Global};

/// The winners of the nodes, each the index of an entry.
#[derive(Drop)]
pub struct Tournament {
    pub order: Order,
    pub winners: Vec<usize>,
}

/// Of an entry and the winner of a node the one that goes first; the entry where there is no such node.
fn first_of(order: Order, held: &Held, winners: &[usize], entry: usize, node: usize) -> usize
    requires entry { entry < length held.now.entries }
    requires within { node < length winners.now → slice_index winners.now node < length held.now.entries }
    ensures { result ≡ pick (goes order held.now.entries) (length winners.now) (slice_index winners.now) entry node }
{
    if node >= winners.len() {
        return entry;
    }
    let winner = winners[node];
    if goes_before(order, held, winner, entry) {
        return winner;
    }
    entry
}

/// The winner of a node, by the winners of those right beneath it.
fn winner_of(order: Order, held: &Held, winners: &[usize], node: usize) -> usize
    requires node { node < length winners.now }
    requires known { length winners.now ≤ length held.now.entries }
    requires left { 2 * node + 1 < length winners.now → slice_index winners.now (2 * node + 1) < length winners.now }
    requires right { 2 * node + 2 < length winners.now → slice_index winners.now (2 * node + 2) < length winners.now }
    ensures { Wins (goes order held.now.entries) (length winners.now) (slice_index winners.now) node result }
{
    let first = first_of(order, held, winners, node, 2 * node + 1);
    first_of(order, held, winners, first, 2 * node + 2)
}

/// Finds the winners of a node and of those above it anew, up to the first one whose winner stays and is not the changed entry.
fn settle_from(order: Order, held: &Held, winners: &mut [usize], changed: usize, node: usize)
    requires node { node < length winners.old }
    requires known { length winners.old ≤ length held.now.entries }
    requires right { IsRankedUpTo (goes order held.now.entries) (length winners.old) (slice_index winners.old) changed node }
    ensures { IsRanked (goes order held.now.entries) (length winners.new) (slice_index winners.new) }
{
    let mut at = node;
    'climbing: loop {
        let winner = winner_of(order, held, winners, at);
        if winner == winners[at] && winner != changed {
            return;
        }
        winners[at] = winner;
        if at == 0 {
            return;
        }
        at = (at - 1) / 2;
    }
}

impl Tournament {
    /// A tournament of no entries.
    pub fn new(alloc: Global, order: Order) -> Tournament
        ensures order { result.order ≡ order }
        ensures size { length result.winners.items ≡ 0 }
    {
        Tournament {
            order,
            winners: Vec::new(alloc),
        }
    }

    /// Makes room for so many entries more. `AllocError` where memory runs out; all is then as before and no room is lost.
    pub fn reserve(&mut self, entries: usize) -> Result<(), AllocError>
        ensures order { self.new.order ≡ self.old.order }
        ensures winners { self.new.winners.items ≡ self.old.winners.items }
        ensures kept { vec_capacity self.old.winners ≤ vec_capacity self.new.winners }
        ensures room { OnOk result (vec_len self.new.winners + entries ≤ vec_capacity self.new.winners) }
    {
        self.winners.reserve(entries)
    }

    /// For how many entries more there is room.
    pub fn room(&self) -> usize
        ensures { result ≡ vec_capacity self.now.winners - vec_len self.now.winners }
    {
        self.winners.capacity() - self.winners.len()
    }

    /// The index of the entry that goes first.
    pub fn first(&self) -> Option<usize>
        ensures { result ≡ slice_get self.now.winners.items 0 }
    {
        self.winners.first().copied()
    }

    /// Settles the change of an entry from a node on, which may be past the last one.
    fn settle_above(&mut self, held: &Held, changed: usize, node: usize)
        requires known { length self.old.winners.items ≤ length held.now.entries }
        requires right { IsRankedUpTo (goes self.old.order held.now.entries) (length self.old.winners.items) (slice_index self.old.winners.items) changed node }
        ensures order { self.new.order ≡ self.old.order }
        ensures size { length self.new.winners.items ≡ length self.old.winners.items }
        ensures capacity { vec_capacity self.new.winners ≡ vec_capacity self.old.winners }
        ensures ranked { IsRanked (goes self.new.order held.now.entries) (length self.new.winners.items) (slice_index self.new.winners.items) }
    {
        if node < self.winners.len() {
            settle_from(self.order, held, self.winners.as_mut_slice(), changed, node);
        }
    }

    /// Settles the change of the entry at an index, which may be past the last one.
    pub fn settle(&mut self, held: &Held, at: usize)
        requires known { length self.old.winners.items ≤ length held.now.entries }
        requires right { IsRankedUpTo (goes self.old.order held.now.entries) (length self.old.winners.items) (slice_index self.old.winners.items) at at }
        ensures order { self.new.order ≡ self.old.order }
        ensures size { length self.new.winners.items ≡ length self.old.winners.items }
        ensures capacity { vec_capacity self.new.winners ≡ vec_capacity self.old.winners }
        ensures ranked { IsRanked (goes self.new.order held.now.entries) (length self.new.winners.items) (slice_index self.new.winners.items) }
    {
        self.settle_above(held, at, at);
    }

    /// Takes in the last entry, which is new. It takes no memory.
    pub fn push(&mut self, held: &Held)
        requires last { length held.now.entries ≡ length self.old.winners.items + 1 }
        requires room { vec_len self.old.winners < vec_capacity self.old.winners }
        requires ranked { IsRanked (goes self.old.order held.now.entries) (length self.old.winners.items) (slice_index self.old.winners.items) }
        ensures order { self.new.order ≡ self.old.order }
        ensures size { length self.new.winners.items ≡ length self.old.winners.items + 1 }
        ensures capacity { vec_capacity self.new.winners ≡ vec_capacity self.old.winners }
        ensures ranked { IsRanked (goes self.new.order held.now.entries) (length self.new.winners.items) (slice_index self.new.winners.items) }
    {
        let last = self.winners.len();
        self.winners.push_reserved(last);
        self.settle(held, last);
    }

    /// Leaves the last entry out, which is still there.
    pub fn pop(&mut self, held: &Held)
        requires some { 0 < length self.old.winners.items }
        requires known { length self.old.winners.items ≤ length held.now.entries }
        requires ranked { IsRanked (goes self.old.order held.now.entries) (length self.old.winners.items) (slice_index self.old.winners.items) }
        ensures order { self.new.order ≡ self.old.order }
        ensures size { length self.new.winners.items + 1 ≡ length self.old.winners.items }
        ensures capacity { vec_capacity self.new.winners ≡ vec_capacity self.old.winners }
        ensures ranked { IsRanked (goes self.new.order held.now.entries) (length self.new.winners.items) (slice_index self.new.winners.items) }
    {
        self.winners.pop();
        let last = self.winners.len();
        self.settle_above(held, last, last.saturating_sub(1) / 2);
    }
}
