//! Keys of metatiles, compared.
ghost use Rattle.std.specs.Prelude.{true, ◌≡◌};
ghost use Rattle.metatile_plan.specs.Keys.{same_meta};
ghost use Rattle.metatile_plan.specs.declared.metatile.MetaKey.{MetaKey};

use crate::metatile::MetaKey;

/// Whether two keys are of one metatile.
pub fn same_meta(a: &MetaKey, b: &MetaKey) -> bool
    ensures { result ≡ same_meta a.now b.now }
{
    *a == *b
}

/// Two keys that compare as one are equal, and each key compares as one with itself.
pub fn laws_of_keys()
    ensures one { (a b : MetaKey) → same_meta a b ≡ true → a ≡ b }
    ensures itself { (a : MetaKey) → same_meta a a ≡ true }
{}
