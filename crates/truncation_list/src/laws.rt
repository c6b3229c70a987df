//! What holds of all covers and books.
ghost use Rattle.std.specs.Prelude.{IsTrue, List, None, Option, Some, max, ℕ, ◌<◌, ◌≡◌, ◌≤◌, ◌⊎◌};
ghost use Rattle.matrix_geometry.specs.Limits.{IsWithinLimits};
ghost use Rattle.matrix_geometry.specs.declared.address.Address.{Address};
ghost use Rattle.matrix_geometry.specs.declared.matrix.Matrix.{Matrix};
ghost use Rattle.truncation_list.specs.Books.{AnswersFor, AnswersForBook, AnswersForFronted, last_seen};
ghost use Rattle.truncation_list.specs.Contains.{contains};
ghost use Rattle.truncation_list.specs.Covers.{IsWithinReach, covers};
ghost use Rattle.truncation_list.specs.Purge.{IsAbove, IsByNumber, IsInOrder, added, purged, remaining, remaining_by_rule, with_cut, with_floor};
ghost use Rattle.truncation_list.specs.declared.book.Book.{Book};
ghost use Rattle.truncation_list.specs.declared.book.Cut.{Cut};
ghost use Rattle.truncation_list.specs.declared.book.FrontedBook.{FrontedBook};
ghost use Rattle.truncation_list.specs.declared.cover.Cover.{Cover};

/// A cover contains itself, and what a cover contains that it contains. It is for each tile that a cover which it contains
/// is for.
pub fn laws_of_containment()
    ensures itself { (a : Cover) → IsTrue (contains a a) }
    ensures transitive { (a b c : Cover) → IsTrue (contains a b) → IsTrue (contains b c) → IsTrue (contains a c) }
    ensures covers { (outer inner : Cover) (m : Matrix) (a : Address) → IsWithinLimits m → a.row < m.rows → a.col < m.cols → IsTrue (contains outer inner) → IsTrue (covers inner m a) → IsTrue (covers outer m a) }
{}

/// A book answers for itself, and for what a book answers for that it answers for. It has then seen no fewer cuts. A number
/// above the last cut that it has seen is above all its cuts.
pub fn laws_of_books()
    ensures itself { (a : Book) → AnswersForBook a a }
    ensures cut { (a b : Book) (cut : Cut) → AnswersForBook a b → AnswersFor b cut → AnswersFor a cut }
    ensures transitive { (a b c : Book) → AnswersForBook a b → AnswersForBook b c → AnswersForBook a c }
    ensures seen { (a b : Book) → AnswersForBook a b → last_seen b ≤ last_seen a }
    ensures above { (number : ℕ) (book : Book) → last_seen book < number → IsAbove number book.cuts }
    ensures both { (a b c : Book) → AnswersForBook a b → AnswersForBook a c → (a ≡ b) ⊎ (a ≡ c) → last_seen a ≡ max (last_seen b) (last_seen c) }
{}

/// The same of books with fronts.
pub fn laws_of_fronted_books()
    ensures itself { (a : FrontedBook) → AnswersForFronted a a }
    ensures transitive { (a b c : FrontedBook) → AnswersForFronted a b → AnswersForFronted b c → AnswersForFronted a c }
{}

/// What a purge does to a book whose cuts stand by number. It takes out what the rule says of all listed cuts. The book
/// after an `add` answers for the one before it and for the new cut, and the order stays; the book after a purge alone, after
/// an `enter` and after a `raise` answers for the one before it. The floor stays below the least number that is kept or
/// running, and below each number above all cuts.
pub fn laws_of_purges()
    ensures rule { (cover : Option Cover) (least : Option ℕ) (cuts : List Cut) → IsByNumber cuts → remaining cover least cuts ≡ remaining_by_rule cover least cuts }
    ensures added { (number : ℕ) (cover : Cover) (least : Option ℕ) (book : Book) → IsByNumber book.cuts → IsAbove number book.cuts → AnswersForBook (added number cover least book) book }
    ensures lists { (number : ℕ) (cover : Cover) (least : Option ℕ) (book : Book) → AnswersFor (added number cover least book) (record { number = number; cover = cover }) }
    ensures order { (number : ℕ) (cover : Cover) (least : Option ℕ) (book : Book) → IsInOrder book.cuts → IsAbove number book.cuts → IsWithinReach cover → IsInOrder (added number cover least book).cuts }
    ensures purged { (least : Option ℕ) (book : Book) → IsByNumber book.cuts → AnswersForBook (purged None least book) book }
    ensures entered { (number : ℕ) (cover : Cover) (book : Book) → AnswersForBook (with_cut number cover book) book }
    ensures raised { (floor : ℕ) (book : Book) → AnswersForBook (with_floor floor book) book }
    ensures below_least { (cover : Option Cover) (least : ℕ) (book : Book) → book.floor < least → (purged cover (Some least) book).floor < least }
    ensures below_above { (cover : Option Cover) (least : Option ℕ) (number : ℕ) (book : Book) → IsAbove number book.cuts → book.floor < number → (purged cover least book).floor < number }
{}
