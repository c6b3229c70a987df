//! What the bytes of a rendering have no part in.
ghost use Rattle.std.specs.Prelude.{Bool, length, ℕ, ◌≡◌};
ghost use Rattle.cabinet.specs.State.{State};
ghost use Rattle.cache_core.specs.Lasting.{Lasting};
ghost use Rattle.cache_core.specs.Steps.{blob_of, finished};
ghost use Rattle.catalog.specs.declared.catalogue.Catalogue.{Catalogue};
ghost use Rattle.metatile_locks.specs.Tickets.{Ticketed};
ghost use Rattle.metatile_plan.specs.declared.metatile.MetaKey.{MetaKey};
ghost use Rattle.raster_field.specs.Blocks.{blob_size};

use cabinet::Keeper;

/// A blob has its metatile's length, and what the finish of a render adds to the history is the same, whatever bytes were
/// rendered.
pub fn laws_of_finishes()
    ensures size { (c : Catalogue) (m : MetaKey) (bytes : ℕ → ℕ) → length (blob_of c m bytes) ≡ blob_size c m }
    ensures alike { (s : State) (t : Ticketed) (bytes : ℕ → ℕ) (others : ℕ → ℕ) (unwritten : Bool) → (finished s t (blob_of s.catalogue t.meta bytes) unwritten).history ≡ (finished s t (blob_of s.catalogue t.meta others) unwritten).history }
{}

/// A crash leaves from a cabinet to itself, and from one over a second to a third, what keeps to the truncations that were in force.
pub fn laws_of_lasting<C: Keeper>()
    ensures itself { (keeper : C) → Lasting (C.outlasts keeper keeper) (C.state keeper) (C.state keeper) }
    ensures on { (first then last : C) → Lasting (C.outlasts first then) (C.state first) (C.state then) → Lasting (C.outlasts then last) (C.state then) (C.state last) → Lasting (C.outlasts first last) (C.state first) (C.state last) }
{}
