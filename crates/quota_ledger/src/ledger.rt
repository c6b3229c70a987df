//! The accounts of a catalogue: bytes are counted in and out, and the scope whose quota is exceeded is told.
ghost use Rattle.std.specs.List.{position};
ghost use Rattle.std.specs.Prelude.{IfOk, None, [], length, map, ◌+◌, ◌<◌, ◌^◌, ◌≡◌, ◌≤◌};
ghost use Rattle.quota_ledger.specs.Accounts.{accounts, added, exceeded, is_above, or_all, removed, used_at};

use crate::account::Account;
use catalog::{Catalogue, Layer, Scope};
use std::alloc::{AllocError, Global};
use std::marker::Model;

/// The accounts of a catalogue. Contracts see them.
#[derive(Drop)]
pub struct Ledger {
    layers: Vec<Account>,
    whole: Account,
}

impl Model for Ledger {
    ghost use Rattle.std.specs.Prelude.{vec_len, ◌^◌, ◌≤◌};
    ghost use Rattle.quota_ledger.specs.Accounts.{Accounts, IsBalanced};

    ghost Value = { Accounts };

    ghost view = { λ l. record { layers = l.layers.items; whole = l.whole } };

    ghost invariant = { λ l. IsBalanced (record { layers = l.layers.items; whole = l.whole }) × (vec_len l.layers ≤ 2 ^ 32) };
}

/// An account of each layer, of which nothing is taken.
fn unused(alloc: Global, layers: &[Layer]) -> Result<Vec<Account>, AllocError>
    ensures { IfOk result (λ v. v.items ≡ map (λ layer. record { quota = layer.quota; used = 0 }) layers.now) }
{
    layers
        .iter()
        .map(|layer| Account {
            quota: layer.quota,
            used: 0,
        })
        .collect(alloc)
}

/// The first account that is above its quota, counted from 0.
fn first_above(accounts: &[Account]) -> Option<usize>
    ensures { result ≡ position is_above accounts.now }
{
    accounts.iter().position(|account| account.is_above())
}

/// All layers, where they are above their quota together.
fn all_exceeded(whole: &Account) -> Option<Scope>
    ensures { result ≡ or_all None (is_above whole.now) }
{
    if whole.is_above() {
        Some(Scope::All)
    } else {
        None
    }
}

impl Ledger {
    /// The accounts of a catalogue of which nothing is taken. `AllocError` where memory runs out, or where there are more
    /// than 2^32 layers, which no `u32` could name.
    pub fn new(alloc: Global, catalogue: &Catalogue) -> Result<Ledger, AllocError>
        ensures { IfOk result (λ ledger. ledger ≡ accounts catalogue.now []) }
    {
        if catalogue.layers.len() > 1 << 32 {
            return Err(AllocError);
        }
        Ok(Ledger {
            layers: unused(alloc, catalogue.layers.as_slice())?,
            whole: Account {
                quota: catalogue.quota,
                used: 0,
            },
        })
    }

    /// Counts so many bytes of a layer in.
    pub fn add(&mut self, layer: u32, bytes: u32)
        requires layer { layer < length self.old.layers }
        requires fits { self.old.whole.used + bytes < 2 ^ 64 }
        ensures { self.new ≡ added layer bytes self.old }
    {
        self.layers[layer as usize].used += u64::from(bytes);
        self.whole.used += u64::from(bytes);
    }

    /// Counts so many bytes of a layer, that were counted in, out again.
    #[tactic(auto, using(crate::proofs::Balance::removed_at, crate::proofs::Balance::used_at_most))]
    pub fn remove(&mut self, layer: u32, bytes: u32)
        requires layer { layer < length self.old.layers }
        requires held { bytes ≤ used_at self.old layer }
        ensures { self.new ≡ removed layer bytes self.old }
    {
        self.layers[layer as usize].used -= u64::from(bytes);
        self.whole.used -= u64::from(bytes);
    }

    /// The bytes of a layer.
    pub fn used(&self, layer: u32) -> u64
        requires { layer < length self.now.layers }
        ensures { result ≡ used_at self.now layer }
    {
        let account = self.layers[layer as usize];
        account.used
    }

    /// The bytes of all layers.
    pub fn used_all(&self) -> u64
        ensures { result ≡ self.now.whole.used }
    {
        self.whole.used
    }

    /// The scope whose quota is exceeded: the first layer above its quota in catalogue order, else all of them where they
    /// are above theirs together; `None` exactly where nothing is above its quota.
    pub fn exceeded(&self) -> Option<Scope>
        ensures { result ≡ exceeded self.now }
    {
        match first_above(&self.layers) {
            Some(layer) => Some(Scope::Layer(layer as u32)),
            None => all_exceeded(&self.whole),
        }
    }
}
