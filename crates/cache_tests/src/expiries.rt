//! Tests of expiry_policy.
ghost use Rattle.std.specs.Prelude.{◌≡◌, ◌≤◌, IfOk};

use catalog::{Policy, Scope};
use expiry_policy::Uses;
use fixtures::META;
use metatile_plan::MetaKey;
use std::alloc::{AllocError, Global};
use std::test::Fail;

const OTHER: MetaKey = MetaKey { col: 1, ..META };

/// No uses yet, with room for two metatiles of one layer.
fn roomy(alloc: Global, policy: Policy) -> Result<Uses, AllocError>
    ensures { IfOk result (λ made. (made.layers ≡ 1) × (2 ≤ made.spare)) }
{
    let mut uses = Uses::new(alloc, policy, 1)?;
    uses.reserve(alloc, 2)?;
    Ok(uses)
}

/// Uses a metatile, where it is held.
fn touch(uses: &mut Uses, meta: &MetaKey) {
    if uses.last_use(meta).is_some() {
        uses.touch(meta);
    }
}

/// Takes a metatile out, where it is held.
fn forget(uses: &mut Uses, meta: &MetaKey) {
    if uses.last_use(meta).is_some() {
        uses.forget(meta);
    }
}

/// Saves the uses of a metatile, and answers how many they are; 0 where it is not held.
fn saved(uses: &mut Uses, meta: &MetaKey) -> u64 {
    if uses.last_use(meta).is_none() {
        return 0;
    }
    uses.saved(meta)
}

/// Two metatiles, of which the first is entered first, and used alone.
fn used(alloc: Global, policy: Policy) -> Result<Uses, AllocError> {
    let mut uses = roomy(alloc, policy)?;
    uses.enter(&META, 0);
    uses.enter(&OTHER, 0);
    touch(&mut uses, &META);
    Ok(uses)
}

/// Whether this metatile goes first of a scope.
fn goes_first(uses: &Uses, scope: Scope, meta: &MetaKey) -> bool {
    uses.victim(scope) == Some(*meta)
}

#[test]
fn the_longest_unused_and_the_least_often_used_go_first(rt: HostRuntime) -> Result<(), Fail> {
    for policy in [Policy::Lru, Policy::Lfu] {
        let mut uses = used(rt.alloc(), policy)?;
        assert!(rt; uses.last_use(&META) == Some(3));
        assert!(rt; goes_first(&uses, Scope::Layer(0), &OTHER));
        forget(&mut uses, &OTHER);
        assert!(rt; goes_first(&uses, Scope::All, &META));
    }
    Ok(())
}

/// Whether the uses of this metatile are to be saved first.
fn is_unsaved(uses: &Uses, meta: &MetaKey) -> bool {
    uses.unsaved() == Some(*meta)
}

#[test]
fn uses_are_saved_by_their_keys(rt: HostRuntime) -> Result<(), Fail> {
    let mut uses = used(rt.alloc(), Policy::Lru)?;
    assert!(rt; is_unsaved(&uses, &META));
    assert!(rt; saved(&mut uses, &META) == 1);
    assert!(rt; uses.saved_uses(&META) == Some(1));
    assert!(rt; uses.uses_of(&OTHER) == Some(0));
    assert!(rt; uses.unsaved().is_none());
    Ok(())
}
