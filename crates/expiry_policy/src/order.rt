//! The orders in which metatiles are ranked.
ghost use Rattle.std.specs.Cmp.Lexicographic.{slice_cmp};
ghost use Rattle.std.specs.Ordering.{nat_cmp};
ghost use Rattle.std.specs.Prelude.{if◌then◌else◌, ◌∷◌, ◌==◌, ◌≡◌};
ghost use Rattle.catalog.specs.declared.catalogue.Policy.TheVariants.{Lfu, Lru};
ghost use Rattle.expiry_policy.specs.Orders.{precedes, ranked};
ghost use Rattle.expiry_policy.specs.Victims.{fields, is_before, rank};

use crate::uses::Use;
use catalog::Policy;
use metatile_plan::MetaKey;
use std::cmp::Ordering;

/// By what metatiles are ranked.
#[derive(Clone, Copy, PartialEq, Eq)]
pub enum Ranking {
    /// As the policy ranks them: the first one is the victim.
    Expiry,
    /// Those with uses that are not saved before the others, each by their keys.
    Unsaved,
}

/// A ranking, and the policy that it may go by.
#[derive(Clone, Copy, PartialEq, Eq)]
pub struct Order {
    pub ranking: Ranking,
    pub policy: Policy,
}

/// Two keys, field by field.
fn cmp_keys(a: &MetaKey, b: &MetaKey) -> Ordering
    ensures { result ≡ slice_cmp nat_cmp (fields a.now) (fields b.now) }
{
    // As slices the values of both are known to be as many, and the derived order then goes by the fields one by one.
    let (_values, _others): (&[u32], &[u32]) = (&a.theme.dims, &b.theme.dims);
    a.cmp(b)
}

/// Two metatiles by their last use, and by their keys where that is one.
fn cmp_last_use(a: &Use, b: &Use) -> Ordering
    ensures { result ≡ slice_cmp nat_cmp (rank Lru a.now) (rank Lru b.now) }
{
    match a.last.cmp(&b.last) {
        Ordering::Equal => cmp_keys(&a.meta, &b.meta),
        unequal => unequal,
    }
}

/// Two metatiles by their uses first.
fn cmp_uses(a: &Use, b: &Use) -> Ordering
    ensures { result ≡ slice_cmp nat_cmp (rank Lfu a.now) (rank Lfu b.now) }
{
    match a.uses.cmp(&b.uses) {
        Ordering::Equal => cmp_last_use(a, b),
        unequal => unequal,
    }
}

/// 1 where all uses are saved, 0 where some are not.
fn standing(entry: &Use) -> u8
    ensures { result ≡ (if entry.now.uses == entry.now.saved then 1 else 0) }
{
    if entry.uses == entry.saved {
        return 1;
    }
    0
}

/// Two metatiles, those with uses that are not saved first, and by their keys where both or neither are saved.
fn cmp_unsaved(a: &Use, b: &Use) -> Ordering
    ensures { result ≡ slice_cmp nat_cmp ((if a.now.uses == a.now.saved then 1 else 0) ∷ fields a.now.meta) ((if b.now.uses == b.now.saved then 1 else 0) ∷ fields b.now.meta) }
{
    match standing(a).cmp(&standing(b)) {
        Ordering::Equal => cmp_keys(&a.meta, &b.meta),
        unequal => unequal,
    }
}

/// Whether the first of the two goes before the second as a policy has it.
fn is_before(policy: Policy, a: &Use, b: &Use) -> bool
    ensures { result ≡ is_before policy a.now b.now }
{
    match policy {
        Policy::Lru => cmp_last_use(a, b).is_lt(),
        Policy::Lfu => cmp_uses(a, b).is_lt(),
    }
}

/// Whether the first of the two goes before the second.
#[tactic(auto, unfolding(crate::specs::Orders::precedes))]
pub fn precedes(order: Order, a: &Use, b: &Use) -> bool
    ensures { result ≡ precedes order a.now b.now }
{
    match order.ranking {
        Ranking::Expiry => is_before(order.policy, a, b),
        Ranking::Unsaved => cmp_unsaved(a, b).is_lt(),
    }
}
