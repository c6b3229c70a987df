//! The places of a job, and the bytes of their blobs.
ghost use Rattle.std.specs.Prelude.{◌≡◌, ◌<◌, ◌≤◌, ◌^◌, IsSome, IfSome, length, slice_get};
ghost use Rattle.catalog.specs.Valid.{IsValid};
ghost use Rattle.job_forms.specs.Job.{Fits};
ghost use Rattle.job_forms.specs.Places.{places};
ghost use Rattle.job_sizes.specs.Sizes.{place_bytes, size_of};

use catalog::Catalogue;
use job_forms::{Job, JobKind, count, nth};
use raster_field::blob_size;

/// How many places a job has, and how many bytes the blobs of their metatiles take.
#[derive(Clone, Copy, PartialEq, Eq)]
pub struct JobSize {
    pub places: u64,
    pub bytes: u64,
}

/// The bytes of the blob at a place of a job. A cut has none.
fn bytes_at(catalogue: &Catalogue, job: &Job, place: u64) -> u32
    requires valid { IsValid catalogue.now }
    requires fits { Fits catalogue.now job.now }
    requires place { place < length (places catalogue.now job.now) }
    ensures { IfSome (slice_get (places catalogue.now job.now) place) (λ p. result ≡ place_bytes catalogue.now p) }
{
    match job.kind {
        JobKind::Seed => blob_size(catalogue, &nth(catalogue, job, place)),
        JobKind::Reseed => blob_size(catalogue, &nth(catalogue, job, place)),
        JobKind::Truncate => 0,
    }
}

/// How large a job that fits the catalogue is. The places are gone through one by one, at most ten million of them; nothing else is looked at.
pub fn size_of(catalogue: &Catalogue, job: &Job) -> JobSize
    requires valid { IsValid catalogue.now }
    requires fits { Fits catalogue.now job.now }
    ensures size { result ≡ size_of catalogue.now job.now }
    ensures most { result.places ≤ 10000000 }
{
    let places = count(catalogue, job);
    let mut bytes: u64 = 0;
    for place in 0..places {
        bytes += u64::from(bytes_at(catalogue, job, place));
    }
    JobSize { places, bytes }
}
