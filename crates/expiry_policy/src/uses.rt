//! The uses of the held metatiles, the victim that they make, and those that are to be saved.
ghost use Rattle.std.specs.List.{AllByRecursion};
ghost use Rattle.std.specs.Option.{option_map};
ghost use Rattle.std.specs.Prelude.{IfOk, IfSome, IsSome, None, OnOk, Some, [], if◌then◌else◌, is_some, length, slice_get, true, ℕ, ◌+◌, ◌<◌, ◌≡◌, ◌≢◌, ◌≤◌, ◌⊎◌};
ghost use Rattle.metatile_plan.specs.Keys.{same_meta};
ghost use Rattle.metatile_plan.specs.declared.metatile.MetaKey.{MetaKey};

use crate::layer::LayerUses;
use crate::layers::{no_uses, put_in, reserve_each};
use crate::leading::{first_of_all, key_of, unsaved_key};
use crate::order::{Order, Ranking};
use catalog::{Policy, Scope};
use metatile_plan::MetaKey;
use std::alloc::{AllocError, Global};
use std::marker::Model;

/// How a metatile was used.
#[derive(Clone, Copy, PartialEq, Eq)]
pub struct Use {
    pub meta: MetaKey,
    /// How often, since it was entered last, up to the greatest number of 64 bits.
    pub uses: u64,
    /// How many of the uses are saved.
    pub saved: u64,
    /// The count of all entries and uses when it was last entered or used.
    pub last: u64,
}

/// The uses of the metatiles that are held. Contracts see the policy, the count of layers whose keys it takes, the count of
/// all entries and uses so far, how each metatile was used, and for how many more keys there is room.
#[derive(Drop)]
pub struct Uses {
    policy: Policy,
    count: u64,
    spare: u32,
    layers: Vec<LayerUses>,
}

impl Model for Uses {
    ghost use Rattle.std.specs.Prelude.{length, map};
    ghost use Rattle.expiry_policy.specs.Layers.{AreLayers};
    ghost use Rattle.expiry_policy.specs.Victims.{Counts};

    ghost Value = { Counts };

    ghost view = { λ u. record { policy = u.policy; layers = length u.layers.items; now = u.count; uses = map (λ l. l.uses) u.layers.items; spare = u.spare } };

    ghost invariant = { λ u. AreLayers u.policy u.spare u.layers.items };
}

impl Uses {
    ghost use Rattle.expiry_policy.specs.Victims.{AreApart, IsUnsaved, IsVictim, all_saved, one_more, use_of, used_at, uses_in};

    /// No uses yet; the keys are of layers below `layers`. `AllocError` where memory runs out.
    pub fn new(alloc: Global, policy: Policy, layers: u32) -> Result<Uses, AllocError>
        ensures policy { IfOk result (λ made. made.policy ≡ policy) }
        ensures layers { IfOk result (λ made. made.layers ≡ layers) }
        ensures now { IfOk result (λ made. made.now ≡ 0) }
        ensures uses { IfOk result (λ made. (m : MetaKey) → use_of made m ≡ None) }
    {
        Ok(Uses {
            policy,
            count: 0,
            spare: 0,
            layers: no_uses(alloc, policy, layers)?,
        })
    }

    /// Makes room for so many keys more in each layer. It goes over the layers only where one of them has come to have less.
    /// `AllocError` where memory runs out; all is then as before and no room is lost.
    pub fn reserve(&mut self, _alloc: Global, keys: u32) -> Result<(), AllocError>
        ensures policy { self.new.policy ≡ self.old.policy }
        ensures layers { self.new.layers ≡ self.old.layers }
        ensures now { self.new.now ≡ self.old.now }
        ensures uses { (m : MetaKey) → use_of self.new m ≡ use_of self.old m }
        ensures kept { self.old.spare ≤ self.new.spare }
        ensures spare { OnOk result (keys ≤ self.new.spare) }
    {
        if self.spare >= keys {
            return Ok(());
        }
        reserve_each(self.layers.as_mut_slice(), keys as usize)?;
        self.spare = keys;
        Ok(())
    }

    /// How a metatile was used, `None` exactly where it is not held.
    fn use_of(&self, meta: &MetaKey) -> Option<Use>
        ensures value { result ≡ use_of self.now meta.now }
        ensures meta { IfSome result (λ u. u.meta ≡ meta.now) }
        ensures layer { IsSome result → meta.now.theme.layer < self.now.layers }
    {
        match self.layers.get(meta.theme.layer as usize) {
            None => None,
            Some(layer) => layer.use_of(meta),
        }
    }

    /// Enters or changes the use of a metatile. It takes no memory.
    fn put(&mut self, entry: &Use)
        requires layer { entry.now.meta.theme.layer < self.old.layers }
        requires room { (1 ≤ self.old.spare) ⊎ IsSome (use_of self.old entry.now.meta) }
        ensures policy { self.new.policy ≡ self.old.policy }
        ensures layers { self.new.layers ≡ self.old.layers }
        ensures now { self.new.now ≡ self.old.now }
        ensures uses { (m : MetaKey) → use_of self.new m ≡ (if same_meta m entry.now.meta then Some entry.now else use_of self.old m) }
        ensures spare { self.old.spare ≤ self.new.spare + 1 }
        ensures kept { IsSome (use_of self.old entry.now.meta) → self.old.spare ≤ self.new.spare }
    {
        let layer = entry.meta.theme.layer as usize;
        self.spare = put_in(&mut self.layers[layer], entry, self.spare);
    }

    /// Enters a key anew, with so many uses, all saved; its last use is now. There is room for it, or it is held.
    pub fn enter(&mut self, meta: &MetaKey, uses: u64)
        requires layer { meta.now.theme.layer < self.old.layers }
        requires room { (1 ≤ self.old.spare) ⊎ IsSome (use_of self.old meta.now) }
        ensures policy { self.new.policy ≡ self.old.policy }
        ensures layers { self.new.layers ≡ self.old.layers }
        ensures now { self.new.now ≡ one_more self.old.now }
        ensures uses { (m : MetaKey) → use_of self.new m ≡ (if same_meta m meta.now then Some (record { meta = meta.now; uses = uses; saved = uses; last = one_more self.old.now }) else use_of self.old m) }
        ensures spare { self.old.spare ≤ self.new.spare + 1 }
        ensures kept { IsSome (use_of self.old meta.now) → self.old.spare ≤ self.new.spare }
    {
        self.count = self.count.saturating_add(1);
        let entry = Use {
            meta: *meta,
            uses,
            saved: uses,
            last: self.count,
        };
        self.put(&entry);
    }

    /// Adds a use of a held key.
    pub fn touch(&mut self, meta: &MetaKey)
        requires { IsSome (use_of self.old meta.now) }
        ensures policy { self.new.policy ≡ self.old.policy }
        ensures layers { self.new.layers ≡ self.old.layers }
        ensures now { self.new.now ≡ one_more self.old.now }
        ensures uses { (m : MetaKey) → use_of self.new m ≡ (if same_meta m meta.now then option_map (used_at (one_more self.old.now)) (use_of self.old m) else use_of self.old m) }
        ensures spare { self.old.spare ≤ self.new.spare }
    {
        let found = self.use_of(meta).unwrap();
        self.count = self.count.saturating_add(1);
        let entry = Use {
            meta: *meta,
            uses: found.uses.saturating_add(1),
            saved: found.saved,
            last: self.count,
        };
        self.put(&entry);
    }

    /// Marks all uses of a held key as saved, and answers how many they are.
    pub fn saved(&mut self, meta: &MetaKey) -> u64
        requires { IsSome (use_of self.old meta.now) }
        ensures answer { option_map (λ u. u.uses) (use_of self.old meta.now) ≡ Some result }
        ensures policy { self.new.policy ≡ self.old.policy }
        ensures layers { self.new.layers ≡ self.old.layers }
        ensures now { self.new.now ≡ self.old.now }
        ensures uses { (m : MetaKey) → use_of self.new m ≡ (if same_meta m meta.now then option_map all_saved (use_of self.old m) else use_of self.old m) }
        ensures spare { self.old.spare ≤ self.new.spare }
    {
        let found = self.use_of(meta).unwrap();
        let entry = Use {
            meta: *meta,
            uses: found.uses,
            saved: found.uses,
            last: found.last,
        };
        self.put(&entry);
        found.uses
    }

    /// Takes a held key out.
    pub fn forget(&mut self, meta: &MetaKey)
        requires { IsSome (use_of self.old meta.now) }
        ensures policy { self.new.policy ≡ self.old.policy }
        ensures layers { self.new.layers ≡ self.old.layers }
        ensures now { self.new.now ≡ self.old.now }
        ensures uses { (m : MetaKey) → use_of self.new m ≡ (if same_meta m meta.now then None else use_of self.old m) }
        ensures spare { self.old.spare ≤ self.new.spare }
    {
        self.layers[meta.theme.layer as usize].remove(meta);
    }

    /// The count of entries and uses when the key was last entered or used, `None` exactly where it is not held.
    pub fn last_use(&self, meta: &MetaKey) -> Option<u64>
        ensures held { is_some result ≡ is_some (use_of self.now meta.now) }
        ensures value { result ≡ option_map (λ u. u.last) (use_of self.now meta.now) }
    {
        match self.use_of(meta) {
            None => None,
            Some(found) => Some(found.last),
        }
    }

    /// How often the key was used since it was entered last, `None` exactly where it is not held.
    pub fn uses_of(&self, meta: &MetaKey) -> Option<u64>
        ensures { result ≡ option_map (λ u. u.uses) (use_of self.now meta.now) }
    {
        match self.use_of(meta) {
            None => None,
            Some(found) => Some(found.uses),
        }
    }

    /// How many uses of the key are saved, `None` exactly where it is not held.
    pub fn saved_uses(&self, meta: &MetaKey) -> Option<u64>
        ensures { result ≡ option_map (λ u. u.saved) (use_of self.now meta.now) }
    {
        match self.use_of(meta) {
            None => None,
            Some(found) => Some(found.saved),
        }
    }

    /// How many metatiles of a layer are held, 0 past the last layer. Each of the layer's uses is of another metatile, and all of
    /// them are of the layer.
    pub fn count_in(&self, layer: u32) -> usize
        ensures count { result ≡ length (uses_in self.now layer) }
        ensures layer { AllByRecursion (λ u. u.meta.theme.layer ≡ layer) (uses_in self.now layer) }
        ensures apart { AreApart (uses_in self.now layer) }
    {
        match self.layers.get(layer as usize) {
            None => 0,
            Some(uses) => uses.count(),
        }
    }

    /// The metatile of a scope that goes first: the one that was used last the longest ago, or the one of the fewest uses
    /// where the least often used goes; `None` exactly where the scope holds nothing.
    pub fn victim(&self, scope: Scope) -> Option<MetaKey>
        ensures { IsVictim self.now.policy scope (use_of self.now) result }
    {
        let order = Order {
            ranking: Ranking::Expiry,
            policy: self.policy,
        };
        match scope {
            Scope::All => key_of(first_of_all(order, self.layers.as_slice())),
            Scope::Layer(number) => match self.layers.get(number as usize) {
                None => None,
                Some(layer) => key_of(layer.first(Ranking::Expiry)),
            },
        }
    }

    /// The metatile of the least key, field by field, of those with uses that are not saved; `None` exactly where all are.
    pub fn unsaved(&self) -> Option<MetaKey>
        ensures { IsUnsaved (use_of self.now) result }
    {
        let order = Order {
            ranking: Ranking::Unsaved,
            policy: self.policy,
        };
        unsaved_key(first_of_all(order, self.layers.as_slice()))
    }
}
