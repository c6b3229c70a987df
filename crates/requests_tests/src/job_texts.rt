//! jobs: texts of jobs, by the rules of a job's two members.
use catalog::Catalogue;
use job_forms::{Job, JobFault, JobField, JobKind, read_job};
use matrix_geometry::Filter;
use std::alloc::Global;
use std::test::Fail;
use truncation_list::Cover;

const COVER: Cover = Cover {
    layer: 0,
    grid: 0,
    z_start: 0,
    z_stop: 2,
    bounds: None,
    filter: Filter {
        style: None,
        dims: [None; 4],
    },
};

/// Whether a text is read so on the built-in catalogue.
fn is_read(alloc: Global, text: &[u8], expected: Result<Job, JobFault>) -> Result<bool, Fail> {
    let catalogue = Catalogue::demo(alloc)?;
    Ok(read_job(alloc, &catalogue, text) == expected)
}

/// A job of the cover.
fn job(kind: JobKind, threads: u32) -> Job {
    Job {
        kind,
        cover: COVER,
        threads,
    }
}

#[test]
fn a_job_is_read(rt: HostRuntime) -> Result<(), Fail> {
    let seed =
        br#"{"threads":8,"type":"seed","layer":"demo","grid":"tiny","zoomStart":0,"zoomStop":2}"#;
    assert!(rt; is_read(rt.alloc(), seed, Ok(job(JobKind::Seed, 8)))?);
    let cut = br#"{"layer":"demo","grid":"tiny","zoomStart":0,"zoomStop":2,"type":"truncate"}"#;
    assert!(rt; is_read(rt.alloc(), cut, Ok(job(JobKind::Truncate, 1)))?);
    Ok(())
}

#[test]
fn a_job_without_a_type_is_missing_its_kind(rt: HostRuntime) -> Result<(), Fail> {
    let text = br#"{"layer":"demo","grid":"tiny","zoomStart":0,"zoomStop":2,"threads":9}"#;
    let missing = Err(JobFault::Missing(JobField::Kind));
    assert!(rt; is_read(rt.alloc(), text, missing)?);
    Ok(())
}

#[test]
fn threads_are_whole_and_from_one_to_eight(rt: HostRuntime) -> Result<(), Fail> {
    let nine =
        br#"{"layer":"demo","grid":"tiny","zoomStart":0,"zoomStop":2,"type":"reseed","threads":9}"#;
    assert!(rt; is_read(rt.alloc(), nine, Err(JobFault::Limit(JobField::Threads)))?);
    let none =
        br#"{"layer":"demo","grid":"tiny","zoomStart":0,"zoomStop":2,"type":"reseed","threads":0}"#;
    assert!(rt; is_read(rt.alloc(), none, Err(JobFault::Limit(JobField::Threads)))?);
    let broken =
        br#"{"layer":"demo","grid":"tiny","zoomStart":0,"zoomStop":2,"type":"reseed","threads":1.5}"#;
    assert!(rt; is_read(rt.alloc(), broken, Err(JobFault::Bad(JobField::Threads)))?);
    Ok(())
}
