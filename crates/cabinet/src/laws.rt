//! What holds of each history that a cabinet can have, and what each row of a command leaves.
ghost use Rattle.std.specs.List.{AllByRecursion};
ghost use Rattle.std.specs.Prelude.{Contains, List, Some, find, length, ℕ, ◌++◌, ◌≡◌, ◌≤◌};
ghost use Rattle.cabinet.specs.Commands.{Abandons, Asks, Cuts, Expires, Finishes, Forces, IsBusy, IsFreshForced, IsFreshReply, Saves};
ghost use Rattle.cabinet.specs.Fresh.{ApartBy, Differ, HoldsAfterCuts, IsCurrent, IsFresh, IsOfLength, MayBeginWith, Possible, cuts_of, moment};
ghost use Rattle.cabinet.specs.Gaps.{HaveRegions};
ghost use Rattle.cabinet.specs.History.{CabinetOpening, History, bare_opening, first, kept, kept_of, render, standing, ticket_render, whole};
ghost use Rattle.cabinet.specs.State.{IsKnown, IsKnownAs, State};
ghost use Rattle.cabinet.specs.declared.kept.Kept.{Kept};
ghost use Rattle.cabinet.specs.declared.replies.Asked.{Asked};
ghost use Rattle.cabinet.specs.declared.replies.CutReply.{CutReply};
ghost use Rattle.cabinet.specs.declared.replies.Expired.{Expired};
ghost use Rattle.cabinet.specs.declared.replies.Finished.{Finished};
ghost use Rattle.cabinet.specs.declared.replies.Forced.{Forced};
ghost use Rattle.cabinet.specs.declared.replies.Saved.{Saved};
ghost use Rattle.catalog.specs.LookUp.{IsTile};
ghost use Rattle.catalog.specs.Valid.{IsValid};
ghost use Rattle.catalog.specs.declared.catalogue.Catalogue.{Catalogue};
ghost use Rattle.matrix_geometry.specs.declared.address.Address.{Address};
ghost use Rattle.metatile_locks.specs.Running.{has_number, render_of, running_for, unmarked};
ghost use Rattle.metatile_locks.specs.Tickets.{Ticketed};
ghost use Rattle.metatile_plan.specs.declared.metatile.MetaKey.{MetaKey};
ghost use Rattle.raster_field.specs.Blocks.{IsMeta, blob_size, block_of};
ghost use Rattle.served_covers.specs.OfCatalogue.{IsCoverOf};
ghost use Rattle.truncation_list.specs.Books.{AnswersFor};
ghost use Rattle.truncation_list.specs.declared.book.Cut.{Cut};
ghost use Rattle.truncation_list.specs.declared.cover.Cover.{Cover};

/// In what follows `o` is an opening, `h` what happened since, and `whole o h` the history that they make. An opening with
/// nothing in it is one. What stands after a history agrees with the sentence on each metatile, each number and each ticket. What is kept for a
/// tile is newer than each truncation of the history that covers it, and was begun at the moment that the history tells; what is fresh
/// stays so. Kept and running numbers keep to the cuts, the book answers for
/// every cut that there was, and numbers differ. Each metatile is kept once, in a region of its own of the blobs' bytes, which has
/// its blob's length; no more are kept, and no more cuts listed, than may be, and each listed cover is of the catalogue.
pub fn laws_of_histories()
    ensures bare { (c : Catalogue) (e : ℕ) → MayBeginWith c (bare_opening e) }
    ensures kept_is { (c : Catalogue) (o : CabinetOpening) (h : History) (m : MetaKey) → MayBeginWith c o → kept_of m (standing c (first o) h) ≡ kept c (whole o h) m }
    ensures render_is { (c : Catalogue) (o : CabinetOpening) (h : History) (k : ℕ) → Possible c o h → find (has_number k) (standing c (first o) h).out ≡ render c (whole o h) k }
    ensures ticket_is { (c : Catalogue) (o : CabinetOpening) (h : History) (t : Ticketed) → Possible c o h → render_of t (standing c (first o) h).out ≡ ticket_render c (whole o h) t }
    ensures running_is { (c : Catalogue) (o : CabinetOpening) (h : History) (m : MetaKey) (k n : ℕ) → Possible c o h → render c (whole o h) k ≡ Some (unmarked k m n) → running_for m (standing c (first o) h).out ≡ Some k }
    ensures runs { (c : Catalogue) (o : CabinetOpening) (h : History) (m : MetaKey) (k : ℕ) → Possible c o h → running_for m (standing c (first o) h).out ≡ Some k → (n : ℕ) × (render c (whole o h) k ≡ Some (unmarked k m n)) }
    ensures current { (c : Catalogue) (o : CabinetOpening) (h : History) (p : ℕ) (a : Address) (t : Kept) → IsValid c → IsTile c a → Possible c o h → kept_of (block_of c a) (standing c (first o) h) ≡ Some t → IsCurrent c (whole o h) p a t.number }
    ensures moments { (c : Catalogue) (o : CabinetOpening) (h : History) → Possible c o h → AllByRecursion (λ t. moment (whole o h) t.number ≡ Some t.moment) (standing c (first o) h).kept }
    ensures later { (c : Catalogue) (h : History) (more : History) (p : ℕ) (a : Address) (k : ℕ) → p ≤ length h → IsFresh c h p a k → IsFresh c (h ++ more) p a k }
    ensures holds { (c : Catalogue) (o : CabinetOpening) (h : History) → Possible c o h → HoldsAfterCuts c (cuts_of (whole o h)) (standing c (first o) h) }
    ensures answers { (c : Catalogue) (o : CabinetOpening) (h : History) (cut : Cut) → Possible c o h → Contains (cuts_of (whole o h)) cut → AnswersFor (standing c (first o) h).book cut }
    ensures differ { (c : Catalogue) (o : CabinetOpening) (h : History) → Possible c o h → Differ (standing c (first o) h) }
    ensures once { (c : Catalogue) (o : CabinetOpening) (h : History) → MayBeginWith c o → ApartBy (λ t. t.meta) (standing c (first o) h).kept }
    ensures lengths { (c : Catalogue) (o : CabinetOpening) (h : History) → Possible c o h → AllByRecursion (IsOfLength c) (standing c (first o) h).kept }
    ensures few { (c : Catalogue) (o : CabinetOpening) (h : History) → Possible c o h → length (standing c (first o) h).kept ≤ c.kept_limit }
    ensures covers { (c : Catalogue) (o : CabinetOpening) (h : History) → Possible c o h → AllByRecursion (λ k. IsCoverOf c k.cover) (standing c (first o) h).book.cuts }
    ensures few_cuts { (c : Catalogue) (o : CabinetOpening) (h : History) → Possible c o h → length (standing c (first o) h).book.cuts ≤ c.cut_limit }
    ensures regions { (c : Catalogue) (o : CabinetOpening) (h : History) → IsValid c → Possible c o h → HaveRegions c.blob_bytes (standing c (first o) h).kept }
{}

/// Each row of a command leaves a known cabinet with the catalogue and the opening of before, whose book answers for the
/// book of before. The number of Busy is that of the metatile's render that runs in the history. The number of a hit or a
/// ticket is fresh at the place of its ask or force.
pub fn laws_of_rows()
    ensures asks { (before after : ℕ) (s : State) (new : State) (a : Address) (r : Asked) → IsKnown s → IsTile s.catalogue a → Asks before after s a r new → IsKnownAs s new }
    ensures forces { (s : State) (new : State) (m : MetaKey) (r : Forced) → IsKnown s → IsMeta s.catalogue m → Forces s m r new → IsKnownAs s new }
    ensures finishes { (s : State) (new : State) (t : Ticketed) (blob : List ℕ) (r : Finished) → IsKnown s → length blob ≡ blob_size s.catalogue t.meta → Finishes s t blob r new → IsKnownAs s new }
    ensures abandons { (s : State) (new : State) (t : Ticketed) → IsKnown s → Abandons s t new → IsKnownAs s new }
    ensures cuts { (s : State) (new : State) (cover : Cover) (r : CutReply) → IsKnown s → IsCoverOf s.catalogue cover → Cuts s cover r new → IsKnownAs s new }
    ensures expires { (s : State) (new : State) (r : Expired) → IsKnown s → Expires s r new → IsKnownAs s new }
    ensures saves { (s : State) (new : State) (r : Saved) → IsKnown s → Saves s r new → IsKnownAs s new }
    ensures busy { (s : State) (new : State) (m : MetaKey) (k : ℕ) → IsKnown s → IsBusy s m k new → (n : ℕ) × (render s.catalogue s.history k ≡ Some (unmarked k m n)) }
    ensures asks_fresh { (before after : ℕ) (s : State) (new : State) (a : Address) (r : Asked) → IsKnown s → IsTile s.catalogue a → Asks before after s a r new → IsFreshReply s a r new }
    ensures forces_fresh { (s : State) (new : State) (a : Address) (r : Forced) → IsKnown s → IsTile s.catalogue a → Forces s (block_of s.catalogue a) r new → IsFreshForced s a r new }
{}
