//! What a reader can rely on.
ghost use Rattle.std.specs.List.{All, flat_map};
ghost use Rattle.std.specs.Prelude.{List, ℕ, ◌≡◌, ◌++◌, ◌∷◌, Some};
ghost use Rattle.metrics_text.specs.declared.family.Family.{Family};
ghost use Rattle.metrics_text.specs.Exposition.{lines_of, metrics_of, value_byte};
ghost use Rattle.metrics_text.specs.Reading.{HasNoLineFeed, value_read};

/// No line has a line feed but the one that ends it, so no help text and no label's value forges a line; the text of families is that of
/// each in turn; and who reads a label's value by the format finds the value, whatever it is, and what stands behind it.
pub fn laws_of_metrics()
    ensures lines { (families : List Family) → All HasNoLineFeed (flat_map lines_of families) }
    ensures order { (first others : List Family) → metrics_of (first ++ others) ≡ metrics_of first ++ metrics_of others }
    ensures value { (value behind : List ℕ) → value_read (flat_map value_byte value ++ 34 ∷ behind) ≡ Some (value, behind) }
{}
