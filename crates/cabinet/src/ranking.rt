//! What is kept, in the order in which a compaction writes it.
ghost use Rattle.std.specs.Cmp.Lexicographic.{slice_cmp};
ghost use Rattle.std.specs.List.Sorted.{IsPermutation};
ghost use Rattle.std.specs.Ordering.{nat_cmp};
ghost use Rattle.std.specs.Prelude.{[], OnOk, Some, length, map, slice_get, ◌++◌, ◌<◌, ◌≡◌, ◌≤◌, ◌∷◌};
ghost use Rattle.cabinet.specs.Shelved.{listed};
ghost use Rattle.cabinet.specs.Writing.{IsInOrderBy, last_of, rank_of, ranked_by};
ghost use Rattle.expiry_policy.specs.Victims.{fields, use_of};

use crate::kept::Kept;
use crate::store::Store;
use expiry_policy::Uses;
use metatile_plan::MetaKey;
use std::alloc::{AllocError, Global};
use std::cmp::Ordering;
use std::marker::Model;

/// A kept metatile with the count of its last use.
#[derive(Clone, Copy, PartialEq, Eq)]
pub struct Ranked {
    pub last: u64,
    pub kept: Kept,
}

/// A list of what is kept, with room for more. Contracts see the list, and how many it has room for in all.
#[derive(Drop)]
pub struct KeptRanking {
    ranked: Vec<Ranked>,
}

impl Model for KeptRanking {
    ghost use Rattle.std.specs.Prelude.{map, vec_capacity};
    ghost use Rattle.cabinet.specs.Started.{Listing};

    ghost Value = { Listing };

    ghost view = { λ r. record { kept = map (λ x. x.kept) r.ranked.items; ranked = r.ranked.items; room = vec_capacity r.ranked } };
}

/// Two keys, field by field.
fn cmp_keys(a: &MetaKey, b: &MetaKey) -> Ordering
    ensures { result ≡ slice_cmp nat_cmp (fields a.now) (fields b.now) }
{
    // As slices the values of both are known to be as many, and the derived order then goes by the fields one by one.
    let (_values, _others): (&[u32], &[u32]) = (&a.theme.dims, &b.theme.dims);
    a.cmp(b)
}

/// Two of a list, by their last use, and by their keys where that is one.
fn cmp_ranked(a: &Ranked, b: &Ranked) -> Ordering
    ensures { result ≡ slice_cmp nat_cmp (rank_of a.now) (rank_of b.now) }
{
    match a.last.cmp(&b.last) {
        Ordering::Equal => cmp_keys(&a.kept.meta, &b.kept.meta),
        unequal => unequal,
    }
}

/// Sorts by last use, and then by the key, field by field. It takes no memory.
fn sort(ranked: &mut [Ranked])
    ensures permutation { IsPermutation ranked.old ranked.new }
    ensures sorted { IsInOrderBy rank_of ranked.new }
{
    ranked.sort_unstable_by(|a, b| cmp_ranked(a, b));
}

/// The count of the last use of a metatile, 0 where it has none.
fn last_use(uses: &Uses, meta: &MetaKey) -> u64
    ensures { result ≡ last_of (use_of uses.now meta.now) }
{
    match uses.last_use(meta) {
        None => 0,
        Some(last) => last,
    }
}

/// Puts all that is kept behind what a list has. It takes no memory.
pub fn rank(store: &Store, uses: &Uses, list: &mut KeptRanking)
    requires none { list.old.ranked ≡ [] }
    requires room { length store.now.blobs ≤ list.old.room }
    ensures ranked { list.new.ranked ≡ map (ranked_by (λ m. use_of uses.now m)) (listed store.now.held) }
    ensures same { list.new.room ≡ list.old.room }
{
    'ranking: for at in 0..store.count() {
        let kept = store.kept_at(at);
        let last = last_use(uses, &kept.meta);
        list.push(Ranked { last, kept });
    }
}

impl KeptRanking {
    /// A list with nothing in it.
    pub fn new(alloc: Global) -> KeptRanking
        ensures { result.kept ≡ [] }
    {
        KeptRanking {
            ranked: Vec::new(alloc),
        }
    }

    /// Makes room for so many in all. `AllocError` where memory runs out; the list is then as before.
    pub fn reserve(&mut self, _alloc: Global, count: usize) -> Result<(), AllocError>
        ensures kept { self.new.kept ≡ self.old.kept }
        ensures no_less { self.old.room ≤ self.new.room }
        ensures room { OnOk result (count ≤ self.new.room) }
    {
        let held = self.ranked.len();
        if count <= held {
            return Ok(());
        }
        self.ranked.reserve(count - held)
    }

    /// Takes all off the list. The room stays.
    pub fn clear(&mut self)
        ensures kept { self.new.kept ≡ [] }
        ensures ranked { self.new.ranked ≡ [] }
        ensures room { self.new.room ≡ self.old.room }
    {
        self.ranked.truncate(0);
    }

    /// Puts one behind the others. It takes no memory.
    pub fn push(&mut self, ranked: Ranked)
        requires { length self.old.ranked < self.old.room }
        ensures ranked { self.new.ranked ≡ self.old.ranked ++ ranked ∷ [] }
        ensures room { self.new.room ≡ self.old.room }
    {
        self.ranked.push_reserved(ranked);
    }

    /// Sorts by last use, and then by the key, field by field. It takes no memory.
    pub fn sort(&mut self)
        ensures ranked { IsPermutation self.old.ranked self.new.ranked }
        ensures kept { self.new.kept ≡ map (λ x. x.kept) self.new.ranked }
        ensures sorted { IsInOrderBy rank_of self.new.ranked }
        ensures room { self.new.room ≡ self.old.room }
    {
        sort(self.ranked.as_mut_slice());
    }

    /// How many are on the list.
    pub fn len(&self) -> usize
        ensures { result ≡ length self.now.kept }
    {
        self.ranked.len()
    }

    /// One of the list, by its place.
    pub fn get(&self, at: usize) -> Kept
        requires { at < length self.now.kept }
        ensures { slice_get self.now.kept at ≡ Some result }
    {
        let ranked = self.ranked[at];
        ranked.kept
    }
}
