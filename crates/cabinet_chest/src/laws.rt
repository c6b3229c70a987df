//! What the numbers of replies are above.
ghost use Rattle.std.specs.Prelude.{IsTrue, ℕ, ◌<◌, ◌≡◌};
ghost use Rattle.cabinet.specs.Hits.{covers_in};
ghost use Rattle.cabinet_chest.specs.Above.{IsAboveAll, IsAboveCovering};
ghost use Rattle.catalog.specs.LookUp.{IsTile};
ghost use Rattle.catalog.specs.Valid.{IsValid};
ghost use Rattle.catalog.specs.declared.catalogue.Catalogue.{Catalogue};
ghost use Rattle.matrix_geometry.specs.declared.address.Address.{Address};
ghost use Rattle.truncation_list.specs.Books.{AnswersFor, AnswersForBook};
ghost use Rattle.truncation_list.specs.declared.book.Book.{Book};
ghost use Rattle.truncation_list.specs.declared.book.Cut.{Cut};

/// A number that is above the truncations of a book that cover a tile is above each one that covers the tile and for which the book
/// answers, or a book for which it answers. One that is above all is above those.
pub fn laws_of_numbers()
    ensures all { (c : Catalogue) (book : Book) (a : Address) (k : ℕ) → IsAboveAll book k → IsAboveCovering c book a k }
    ensures above { (c : Catalogue) (book : Book) (a : Address) (k : ℕ) (cut : Cut) → IsValid c → IsTile c a → IsAboveCovering c book a k → AnswersFor book cut → IsTrue (covers_in c cut.cover a) → cut.number < k }
    ensures older { (c : Catalogue) (book older : Book) (a : Address) (k : ℕ) (cut : Cut) → IsValid c → IsTile c a → IsAboveCovering c book a k → AnswersForBook book older → AnswersFor older cut → IsTrue (covers_in c cut.cover a) → cut.number < k }
{}
