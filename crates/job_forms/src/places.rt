//! The places of a job: how many there are, each by its number, and whether a job fits the catalogue.
ghost use Rattle.std.specs.Prelude.{ℕ, ◌≡◌, ◌≢◌, ◌↔◌, ◌<◌, ◌≤◌, Some, length, slice_get, true};
ghost use Rattle.catalog.specs.Valid.{IsValid};
ghost use Rattle.job_forms.specs.Job.{Fits};
ghost use Rattle.job_forms.specs.Places.{Metatile, metatiles, places};
ghost use Rattle.raster_field.specs.Blocks.{IsMeta};
ghost use Rattle.served_covers.specs.OfCatalogue.{IsCoverOf};

use crate::job::{Job, JobKind};
use crate::themes::{how_many_themes, theme_at};
use crate::zooms::{how_many_each, meta_at};
use catalog::Catalogue;
use metatile_plan::MetaKey;
use served_covers::is_cover_of;
use truncation_list::Cover;

/// The most places that a job may have.
const MOST_PLACES: u128 = 10_000_000;

/// How many metatiles have a tile that the cover covers. It can be far more than a job may have.
fn how_many_metatiles(catalogue: &Catalogue, cover: &Cover) -> u128
    requires valid { IsValid catalogue.now }
    requires cover { IsCoverOf catalogue.now cover.now }
    ensures { result ≡ length (metatiles catalogue.now cover.now) }
{
    u128::from(how_many_themes(catalogue, cover)) * how_many_each(catalogue, cover)
}

/// How many places a job would have whose cover is of the catalogue.
fn how_many_places(catalogue: &Catalogue, job: &Job) -> u128
    requires valid { IsValid catalogue.now }
    requires cover { IsCoverOf catalogue.now job.now.cover }
    ensures { result ≡ length (places catalogue.now job.now) }
{
    match job.kind {
        JobKind::Seed => how_many_metatiles(catalogue, &job.cover),
        JobKind::Reseed => how_many_metatiles(catalogue, &job.cover),
        JobKind::Truncate => 1,
    }
}

/// Whether a job whose cover is of the catalogue has at most ten million places.
pub(crate) fn has_few_places(catalogue: &Catalogue, job: &Job) -> bool
    requires valid { IsValid catalogue.now }
    requires cover { IsCoverOf catalogue.now job.now.cover }
    ensures { (result ≡ true) ↔ (length (places catalogue.now job.now) ≤ 10000000) }
{
    how_many_places(catalogue, job) <= MOST_PLACES
}

/// Whether a job fits the catalogue: its cover is of it, it has 1 to 8 threads, and at most ten million places. The places
/// aren't gone through.
pub fn fits(catalogue: &Catalogue, job: &Job) -> bool
    requires { IsValid catalogue.now }
    ensures { (result ≡ true) ↔ Fits catalogue.now job.now }
{
    if !is_cover_of(catalogue, &job.cover) {
        return false;
    }
    if job.threads < 1 || job.threads > 8 {
        return false;
    }
    has_few_places(catalogue, job)
}

/// How many places a job that fits has, at most ten million. A truncation has one.
pub fn count(catalogue: &Catalogue, job: &Job) -> u64
    requires valid { IsValid catalogue.now }
    requires fits { Fits catalogue.now job.now }
    ensures places { result ≡ length (places catalogue.now job.now) }
    ensures most { result ≤ 10000000 }
{
    how_many_places(catalogue, job) as u64
}

/// The metatile at this place of a seed or a reseed that fits, by style, values, matrix, row and column. It is one of the
/// catalogue. The time is that of the matrices of one grid, wherever the place is.
pub fn nth(catalogue: &Catalogue, job: &Job, i: u64) -> MetaKey
    requires valid { IsValid catalogue.now }
    requires fits { Fits catalogue.now job.now }
    requires kind { job.now.kind ≢ JobKind.Truncate }
    requires place { i < length (places catalogue.now job.now) }
    ensures place { slice_get (places catalogue.now job.now) i ≡ Some (Metatile result) }
    ensures meta { IsMeta catalogue.now result }
{
    let each = how_many_each(catalogue, &job.cover);
    let place = u128::from(i);
    let theme = theme_at(catalogue, &job.cover, place / each);
    meta_at(catalogue, &job.cover, theme, place % each)
}
