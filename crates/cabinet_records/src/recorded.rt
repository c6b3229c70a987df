//! What each command adds to the records of a journal, so that they still say what is kept.
ghost use Rattle.std.specs.List.Sorted.{IsPermutation};
ghost use Rattle.std.specs.List.{AllByRecursion};
ghost use Rattle.std.specs.Prelude.{[], ◌∷◌, ◌++◌, ◌+◌, ◌<◌, ◌^◌, ◌≡◌, ◌≤◌, List, Option, Some, length, map, ℕ};
ghost use Rattle.cabinet.specs.Commands.{Cuts, Expires, Finishes, Saves, kept_at};
ghost use Rattle.cabinet.specs.Counted.{uses};
ghost use Rattle.cabinet.specs.Fresh.{cuts_of};
ghost use Rattle.cabinet.specs.History.{kept_of};
ghost use Rattle.cabinet.specs.State.{IsKnown, State, now};
ghost use Rattle.cabinet.specs.declared.kept.Kept.{Kept};
ghost use Rattle.cabinet.specs.declared.replies.CutReply.TheVariants as cut;
ghost use Rattle.cabinet.specs.declared.replies.Expired.TheVariants as expired;
ghost use Rattle.cabinet.specs.declared.replies.Finished.TheVariants as finished;
ghost use Rattle.cabinet.specs.declared.replies.Saved.TheVariants as saved;
ghost use Rattle.cabinet_records.specs.Recorded.{IsRecordedIn, compacted, stored_record};
ghost use Rattle.cabinet_records.specs.Replay.{Replayed, Replays, book_after, opening_after, unplayed};
ghost use Rattle.metatile_locks.specs.Tickets.{Ticketed};
ghost use Rattle.metatile_plan.specs.declared.metatile.MetaKey.{MetaKey};
ghost use Rattle.raster_field.specs.Blocks.{blob_size};
ghost use Rattle.record_text.specs.declared.entries.Record.TheVariants as record_of;
ghost use Rattle.record_text.specs.declared.entries.Record.{Record};
ghost use Rattle.served_covers.specs.OfCatalogue.{IsCoverOf};
ghost use Rattle.truncation_list.specs.Books.{AnswersForBook};
ghost use Rattle.truncation_list.specs.declared.cover.Cover.{Cover};

/// What the records of a cabinet's journal come to at the next opening: all that it keeps, with no more cuts than may be, and a
/// book that answers for its own. So it is after an opening, after each command that adds its record, and after a compaction.
/// A command that adds none changes nothing of what is kept and listed.
pub fn laws_of_records()
    ensures opened { (s : State) (r : Replayed) (records : List (Option Record)) → IsKnown s → Replays s.catalogue unplayed records r → s.opening ≡ opening_after r → s.since ≡ []
        → IsRecordedIn s (records ++ Some (record_of.Opened s.opening.number s.opening.book.floor) ∷ []) }
    ensures restores { (s : State) (records : List (Option Record)) → IsKnown s → IsRecordedIn s records
        → (r : Replayed) × Replays s.catalogue unplayed records r × IsPermutation r.kept (now s).kept × (length (book_after r).cuts ≤ s.catalogue.cut_limit) × AnswersForBook (book_after r) (now s).book }
    ensures kept { (s new : State) (records : List (Option Record)) (t : Ticketed) (blob : List ℕ) → IsKnown s → IsRecordedIn s records → length blob ≡ blob_size s.catalogue t.meta → (finishes : Finishes s t blob finished.Kept new)
        → IsRecordedIn new (records ++ Some (stored_record (kept_at t finishes.0 finishes.3.0 (length blob))) ∷ []) }
    ensures cut { (s new : State) (records : List (Option Record)) (cover : Cover) (t : ℕ) → IsKnown s → IsRecordedIn s records → IsCoverOf s.catalogue cover → Cuts s cover (cut.Done t) new
        → IsRecordedIn new (records ++ Some (record_of.Cut t cover) ∷ []) }
    ensures dropped { (s new : State) (records : List (Option Record)) (m : MetaKey) (t : Kept) → IsKnown s → IsRecordedIn s records → kept_of m (now s) ≡ Some t → Expires s (expired.Dropped m) new
        → IsRecordedIn new (records ++ Some (record_of.Dropped t.number m) ∷ []) }
    ensures saved { (s new : State) (records : List (Option Record)) (m : MetaKey) (t : Kept) → IsKnown s → IsRecordedIn s records → kept_of m (now s) ≡ Some t → Saves s (saved.Done m) new
        → IsRecordedIn new (records ++ Some (record_of.Uses t.number m (uses s.history m)) ∷ []) }
    ensures compacts { (s : State) (kept : List Kept) → IsKnown s → IsPermutation kept (now s).kept → IsRecordedIn s (map (λ r. Some r) (compacted s.opening.number (now s).book kept)) }
    ensures alike { (s new : State) (records : List (Option Record)) → IsRecordedIn s records → new.catalogue ≡ s.catalogue → new.opening ≡ s.opening → (now new).kept ≡ (now s).kept → (now new).book ≡ (now s).book → cuts_of new.history ≡ cuts_of s.history
        → IsRecordedIn new records }
{}
