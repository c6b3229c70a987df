//! What holds of the places of all jobs.
ghost use Rattle.std.specs.Prelude.{ℕ, ◌≡◌, ◌≢◌, ◌<◌, ◌↔◌, [], ◌∷◌, Some, Contains, slice_get};
ghost use Rattle.catalog.specs.Valid.{AreDistinct, IsValid};
ghost use Rattle.catalog.specs.declared.catalogue.Catalogue.{Catalogue};
ghost use Rattle.job_forms.specs.Covered.{CoversTileOf};
ghost use Rattle.job_forms.specs.Order.{IsBefore};
ghost use Rattle.job_forms.specs.Places.{Cut, Metatile, places};
ghost use Rattle.job_forms.specs.declared.job.Job.{Job};
ghost use Rattle.job_forms.specs.declared.job.JobKind.TheVariants.{Truncate};
ghost use Rattle.metatile_plan.specs.declared.metatile.MetaKey.{MetaKey};
ghost use Rattle.raster_field.specs.Blocks.{IsMeta};
ghost use Rattle.served_covers.specs.OfCatalogue.{IsCoverOf};

use raster_field::laws_of_metatiles;

/// The places of a seed or a reseed are exactly the metatiles of which its cover covers a tile, by style, values, matrix, row
/// and column, and each is one of the catalogue; a truncation has its cut alone. No place stands in the list twice.
pub fn laws_of_places()
    ensures metatiles { (c : Catalogue) (job : Job) (k : MetaKey) → IsValid c → IsCoverOf c job.cover → job.kind ≢ Truncate → Contains (places c job) (Metatile k) ↔ CoversTileOf c job.cover k }
    ensures metas { (c : Catalogue) (job : Job) (k : MetaKey) → IsValid c → IsCoverOf c job.cover → Contains (places c job) (Metatile k) → IsMeta c k }
    ensures cut { (c : Catalogue) (job : Job) → job.kind ≡ Truncate → places c job ≡ Cut job.cover ∷ [] }
    ensures order { (c : Catalogue) (job : Job) (i j : ℕ) (a b : MetaKey) → i < j → slice_get (places c job) i ≡ Some (Metatile a) → slice_get (places c job) j ≡ Some (Metatile b) → IsBefore a b }
    ensures once { (c : Catalogue) (job : Job) → AreDistinct (places c job) }
{
    laws_of_metatiles();
}
