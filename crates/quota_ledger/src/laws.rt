//! What holds of the accounts of a catalogue for any parts.
ghost use Rattle.std.specs.List.{AllByRecursion, list_any};
ghost use Rattle.std.specs.Prelude.{List, Some, [], length, true, ℕ, ◌++◌, ◌<◌, ◌≡◌, ◌≤◌, ◌∷◌};
ghost use Rattle.catalog.specs.Scopes.{is_in};
ghost use Rattle.catalog.specs.declared.catalogue.Catalogue.{Catalogue};
ghost use Rattle.catalog.specs.declared.catalogue.Scope.{Scope};
ghost use Rattle.quota_ledger.specs.Accounts.{IsBalanced, Part, accounts, added, exceeded, removed, used, used_at};

/// A part that is counted in gives the accounts of the parts with it, and one that is counted out again those of the parts
/// without it, wherever it stood among them; its bytes were counted then. What is told of a layer is its sum from scratch.
/// There is an account for each layer, and the whole is their sum. What exceeds its quota holds something.
pub fn laws_of_ledgers()
    ensures added { (c : Catalogue) (parts : List Part) (p : Part) → p.layer < length c.layers → added p.layer p.length (accounts c parts) ≡ accounts c (parts ++ p ∷ []) }
    ensures removed { (c : Catalogue) (before after : List Part) (p : Part) → p.layer < length c.layers → removed p.layer p.length (accounts c (before ++ p ∷ after)) ≡ accounts c (before ++ after) }
    ensures sums { (c : Catalogue) (parts : List Part) (layer : ℕ) → layer < length c.layers → used_at (accounts c parts) layer ≡ used layer parts }
    ensures counted { (c : Catalogue) (before after : List Part) (p : Part) → p.layer < length c.layers → p.length ≤ used_at (accounts c (before ++ p ∷ after)) p.layer }
    ensures layers { (c : Catalogue) (parts : List Part) → length (accounts c parts).layers ≡ length c.layers }
    ensures balanced { (c : Catalogue) (parts : List Part) → AllByRecursion (λ p. p.layer < length c.layers) parts → IsBalanced (accounts c parts) }
    ensures holds { (c : Catalogue) (parts : List Part) (scope : Scope) → exceeded (accounts c parts) ≡ Some scope → list_any (λ p. is_in scope p.layer) parts ≡ true }
{}
