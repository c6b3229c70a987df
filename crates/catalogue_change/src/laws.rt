//! What callers know of a metatile that stays.
ghost use Rattle.std.specs.Prelude.{◌≡◌, Bool};
ghost use Rattle.catalog.specs.LookUp.{matrix_in};
ghost use Rattle.catalog.specs.declared.catalogue.Catalogue.{Catalogue};
ghost use Rattle.catalogue_change.specs.Alike.{Stays};
ghost use Rattle.metatile_plan.specs.declared.metatile.MetaKey.{MetaKey};
ghost use Rattle.raster_field.specs.Blocks.{IsMeta, blob_size, factors_at};

/// A metatile that stays is one of the new catalogue, of the same length, on the same matrix, and gathered by the same factors.
pub fn laws_of_changes()
    ensures meta { (c d : Catalogue) (m : MetaKey) → Stays c d m → IsMeta c m → IsMeta d m }
    ensures size { (c d : Catalogue) (m : MetaKey) → Stays c d m → blob_size d m ≡ blob_size c m }
    ensures matrix { (c d : Catalogue) (m : MetaKey) → Stays c d m → matrix_in d m.grid m.z ≡ matrix_in c m.grid m.z }
    ensures factors { (c d : Catalogue) (m : MetaKey) → Stays c d m → factors_at d m.theme ≡ factors_at c m.theme }
{}
