//! What the records of a journal open to.
ghost use Rattle.std.specs.List.{AllByRecursion};
ghost use Rattle.std.specs.Prelude.{List, Option, length, ◌≤◌};
ghost use Rattle.cabinet.specs.Fresh.{MayBeginWith};
ghost use Rattle.cabinet_records.specs.Replay.{Replayed, Replays, book_after, opening_after, unplayed};
ghost use Rattle.catalog.specs.Valid.{IsValid};
ghost use Rattle.catalog.specs.declared.catalogue.Catalogue.{Catalogue};
ghost use Rattle.record_text.specs.declared.entries.Record.{Record};
ghost use Rattle.truncation_list.specs.Books.{AnswersFor};

/// Records that a cache has, of which no more cuts are left than may be, come to an opening that histories may begin with. Its book
/// answers for every cut of the records, the purged ones too.
pub fn laws_of_replays()
    ensures opens { (c : Catalogue) (records : List (Option Record)) (r : Replayed) → IsValid c → Replays c unplayed records r → length (book_after r).cuts ≤ c.cut_limit → MayBeginWith c (opening_after r) }
    ensures answers { (c : Catalogue) (records : List (Option Record)) (r : Replayed) → Replays c unplayed records r → AllByRecursion (AnswersFor (book_after r)) r.cuts }
{}
