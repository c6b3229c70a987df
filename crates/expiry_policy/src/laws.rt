//! What holds of the victims of all expiries.
ghost use Rattle.std.specs.Prelude.{IsSome, List, None, Option, Some, [], find, true, ◌≡◌};
ghost use Rattle.catalog.specs.Scopes.{is_in};
ghost use Rattle.catalog.specs.declared.catalogue.Policy.{Policy};
ghost use Rattle.catalog.specs.declared.catalogue.Scope.{Scope};
ghost use Rattle.expiry_policy.specs.Victims.{AreApart, IsVictim, in_scope, is_of, victim};
ghost use Rattle.expiry_policy.specs.declared.uses.Use.{Use};
ghost use Rattle.metatile_plan.specs.declared.metatile.MetaKey.{MetaKey};

/// A victim is held and of the scope, and there is none exactly where the scope holds nothing. Where the uses are of different
/// metatiles, there is no other victim than the list's.
pub fn laws_of_victims()
    ensures held { (p : Policy) (scope : Scope) (us : List Use) (m : MetaKey) → victim p scope us ≡ Some m → IsSome (find (is_of m) us) }
    ensures scoped { (p : Policy) (scope : Scope) (us : List Use) (m : MetaKey) → victim p scope us ≡ Some m → is_in scope m.theme.layer ≡ true }
    ensures none { (p : Policy) (scope : Scope) (us : List Use) → victim p scope us ≡ None → in_scope scope us ≡ [] }
    ensures only { (p : Policy) (scope : Scope) (us : List Use) (result : Option MetaKey) → AreApart us → IsVictim p scope (λ m. find (is_of m) us) result → result ≡ victim p scope us }
    ensures empty { (p : Policy) (scope : Scope) (us : List Use) → in_scope scope us ≡ [] → victim p scope us ≡ None }
{}
