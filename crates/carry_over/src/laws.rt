//! What callers know of what is taken over.
ghost use Rattle.std.specs.Prelude.{List, ℕ};
ghost use Rattle.cabinet.specs.Fresh.{MayBeginWith};
ghost use Rattle.cabinet.specs.History.{CabinetOpening};
ghost use Rattle.cabinet.specs.declared.kept.Kept.{Kept};
ghost use Rattle.carry_over.specs.Chosen.{Takes, taken_over};
ghost use Rattle.catalog.specs.Valid.{IsValid};
ghost use Rattle.catalog.specs.declared.catalogue.Catalogue.{Catalogue};
ghost use Rattle.truncation_list.specs.declared.book.Cut.{Cut};

/// What is taken over of an opening of the one catalogue is an opening of the other one, with which its histories may begin: so all that holds of each history
/// of a cabinet holds of what follows it.
pub fn laws_of_carries()
    ensures opens { (c d : Catalogue) (o : CabinetOpening) (chosen kept : List Kept) (cuts : List Cut) (roomless unread : ℕ)
        → MayBeginWith c o → Takes c d o chosen kept cuts roomless unread → MayBeginWith d (taken_over o kept cuts) }
{}
