//! The uses of the metatiles of one layer, with the tournaments that rank them.
ghost use Rattle.std.specs.List.{AllByRecursion};
ghost use Rattle.std.specs.Prelude.{IfSome, IsSome, None, OnOk, Some, [], if◌then◌else◌, is_some, length, slice_index, true, ◌+◌, ◌≡◌, ◌≤◌, ◌⊎◌};
ghost use Rattle.expiry_policy.specs.Entries.{goes, uses_of};
ghost use Rattle.expiry_policy.specs.Layers.{use_in};
ghost use Rattle.expiry_policy.specs.Orders.{IsFirst};
ghost use Rattle.expiry_policy.specs.Tournaments.{IsRanked};
ghost use Rattle.expiry_policy.specs.Victims.{AreApart};
ghost use Rattle.metatile_plan.specs.Keys.{same_meta};
ghost use Rattle.metatile_plan.specs.declared.metatile.MetaKey.{MetaKey};

use crate::held::{Held, add, change, index_of, take_out, use_at, use_of};
use crate::order::{Order, Ranking};
use crate::tournament::Tournament;
use crate::uses::Use;
use catalog::Policy;
use indexmap::IndexMap;
use metatile_plan::MetaKey;
use std::alloc::{AllocError, Global};
use std::marker::Model;

/// The uses of the metatiles of one layer.
#[derive(Drop)]
pub struct LayerUses {
    number: u32,
    held: Held,
    expiry: Tournament,
    unsaved: Tournament,
}

impl Model for LayerUses {
    ghost use Rattle.std.specs.Prelude.{min, vec_capacity, vec_len, ◌-◌};
    ghost use Rattle.indexmap.specs.IndexMap.{spare as places};
    ghost use Rattle.expiry_policy.specs.Entries.{uses_of};
    ghost use Rattle.expiry_policy.specs.Layers.{IsOfLayer, OfLayer};

    ghost Value = { OfLayer };

    ghost view = { λ l. record { number = l.number; policy = l.expiry.order.policy; uses = uses_of l.held.entries; spare = min (places l.held) (min (vec_capacity l.expiry.winners - vec_len l.expiry.winners) (vec_capacity l.unsaved.winners - vec_len l.unsaved.winners)) } };

    ghost invariant = { λ l. IsOfLayer l.number l.expiry.order.policy l.held.entries l.expiry l.unsaved };
}

/// The use that goes first in a tournament of all entries.
fn leader(held: &Held, tournament: &Tournament) -> Option<Use>
    requires size { length tournament.now.winners.items ≡ length held.now.entries }
    requires ranked { IsRanked (goes tournament.now.order held.now.entries) (length tournament.now.winners.items) (slice_index tournament.now.winners.items) }
    ensures { IsFirst tournament.now.order (λ _. true) (use_in (uses_of held.now.entries)) result }
{
    match tournament.first() {
        None => None,
        Some(at) => Some(use_at(held, at)),
    }
}

impl LayerUses {
    /// No uses yet of a layer.
    pub fn new(alloc: Global, policy: Policy, number: u32) -> LayerUses
        ensures { result ≡ record { number = number; policy = policy; uses = []; spare = result.spare } }
    {
        LayerUses {
            number,
            held: IndexMap::new(alloc),
            expiry: Tournament::new(
                alloc,
                Order {
                    ranking: Ranking::Expiry,
                    policy,
                },
            ),
            unsaved: Tournament::new(
                alloc,
                Order {
                    ranking: Ranking::Unsaved,
                    policy,
                },
            ),
        }
    }

    /// Makes room for so many keys more. `AllocError` where memory runs out; all is then as before and no room is lost.
    pub fn reserve(&mut self, keys: usize) -> Result<(), AllocError>
        ensures number { self.new.number ≡ self.old.number }
        ensures policy { self.new.policy ≡ self.old.policy }
        ensures uses { self.new.uses ≡ self.old.uses }
        ensures kept { self.old.spare ≤ self.new.spare }
        ensures room { OnOk result (keys ≤ self.new.spare) }
    {
        self.held.reserve(keys)?;
        self.expiry.reserve(keys)?;
        self.unsaved.reserve(keys)
    }

    /// For how many keys more there is room.
    pub fn room(&self) -> usize
        ensures { result ≡ self.now.spare }
    {
        let held = self.held.capacity() - self.held.len();
        held.min(self.expiry.room().min(self.unsaved.room()))
    }

    /// How many metatiles are held. Each of the uses is of another metatile, and all of them are of the layer.
    pub fn count(&self) -> usize
        ensures count { result ≡ length self.now.uses }
        ensures layer { AllByRecursion (λ u. u.meta.theme.layer ≡ self.now.number) self.now.uses }
        ensures apart { AreApart self.now.uses }
    {
        self.held.len()
    }

    /// How a metatile was used, `None` exactly where it is not held.
    pub fn use_of(&self, meta: &MetaKey) -> Option<Use>
        ensures value { result ≡ use_in self.now.uses meta.now }
        ensures meta { IfSome result (λ u. u.meta ≡ meta.now) }
    {
        match self.held.get(meta) {
            None => None,
            Some(tally) => Some(use_of(meta, tally)),
        }
    }

    /// The use that goes first, `None` exactly where nothing is held.
    pub fn first(&self, ranking: Ranking) -> Option<Use>
        ensures first { IsFirst (record { ranking = ranking; policy = self.now.policy }) (λ _. true) (use_in self.now.uses) result }
        ensures number { IfSome result (λ u. u.meta.theme.layer ≡ self.now.number) }
    {
        match ranking {
            Ranking::Expiry => leader(&self.held, &self.expiry),
            Ranking::Unsaved => leader(&self.held, &self.unsaved),
        }
    }

    /// Enters or changes the use of a metatile of the layer, and answers whether it was held. It takes no memory.
    pub fn put(&mut self, entry: &Use) -> bool
        requires layer { entry.now.meta.theme.layer ≡ self.old.number }
        requires room { (1 ≤ self.old.spare) ⊎ IsSome (use_in self.old.uses entry.now.meta) }
        ensures held { result ≡ is_some (use_in self.old.uses entry.now.meta) }
        ensures number { self.new.number ≡ self.old.number }
        ensures policy { self.new.policy ≡ self.old.policy }
        ensures uses { (m : MetaKey) → use_in self.new.uses m ≡ (if same_meta m entry.now.meta then Some entry.now else use_in self.old.uses m) }
        ensures spare { self.old.spare ≤ self.new.spare + 1 }
        ensures kept { result ≡ true → self.old.spare ≤ self.new.spare }
    {
        match index_of(&self.held, &entry.meta) {
            Some(at) => {
                change(&mut self.held, at, entry);
                self.expiry.settle(&self.held, at);
                self.unsaved.settle(&self.held, at);
                true
            }
            None => {
                add(&mut self.held, entry);
                self.expiry.push(&self.held);
                self.unsaved.push(&self.held);
                false
            }
        }
    }

    /// Takes a held metatile out.
    pub fn remove(&mut self, meta: &MetaKey)
        requires { IsSome (use_in self.old.uses meta.now) }
        ensures number { self.new.number ≡ self.old.number }
        ensures policy { self.new.policy ≡ self.old.policy }
        ensures uses { (m : MetaKey) → use_in self.new.uses m ≡ (if same_meta m meta.now then None else use_in self.old.uses m) }
        ensures spare { self.old.spare ≤ self.new.spare }
    {
        let gone = index_of(&self.held, meta).unwrap();
        // The last entry moves to the place of the one that goes, so both tournaments leave the last out first.
        self.expiry.pop(&self.held);
        self.unsaved.pop(&self.held);
        take_out(&mut self.held, gone);
        self.expiry.settle(&self.held, gone);
        self.unsaved.settle(&self.held, gone);
    }
}
