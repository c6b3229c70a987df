//! jobs: the places of seeds whose box ends within a metatile. The matrices of the grid have 1, 2 and 4 tiles each way, of 16, 8 and
//! 4 units from the corner 0, 16; the layer gathers two tiles each way, and has two dimensions of two values.
ghost use Rattle.std.specs.Prelude.{◌≢◌};
ghost use Rattle.catalog.specs.Valid.{IsValid};
ghost use Rattle.job_forms.specs.Job.{Fits};

use catalog::Catalogue;
use fixtures::sea_catalogue;
use job_forms::{Job, JobKind, count, fits, nth};
use matrix_geometry::{Box9, Filter, Theme};
use metatile_plan::MetaKey;
use std::alloc::{AllocError, Global};
use std::test::Fail;
use truncation_list::Cover;

/// The matrices 1 and 2 from 0 to 9 units to the right and 7 downwards, in which the last matrix has the columns 0 to 2 and
/// the rows 0 and 1: its second metatile is covered in one of its two columns.
const COVER: Cover = Cover {
    layer: 0,
    grid: 0,
    z_start: 1,
    z_stop: 2,
    bounds: Some(Box9 {
        min_x: 0,
        min_y: 9_000_000_000,
        max_x: 9_000_000_000,
        max_y: 16_000_000_000,
    }),
    filter: Filter {
        style: None,
        dims: [Some(1), None, None, None],
    },
};

const SEED: Job = Job {
    kind: JobKind::Seed,
    cover: COVER,
    threads: 2,
};

/// All places of a seed that fits, in order.
fn all_places(alloc: Global, catalogue: &Catalogue, job: &Job) -> Result<Vec<MetaKey>, AllocError>
    requires valid { IsValid catalogue.now }
    requires fits { Fits catalogue.now job.now }
    requires kind { job.now.kind ≢ JobKind.Truncate }
{
    let mut places = Vec::new(alloc);
    for i in 0..count(catalogue, job) {
        places.push(nth(catalogue, job, i))?;
    }
    Ok(places)
}

/// A metatile of the second time.
fn place(level: u32, z: u32, row: u32, col: u32) -> MetaKey {
    let theme = Theme {
        layer: 0,
        style: 0,
        dims: [1, level, 0, 0],
    };
    MetaKey {
        theme,
        grid: 0,
        z,
        row,
        col,
    }
}

#[test]
fn a_box_that_ends_within_a_metatile_has_it(rt: HostRuntime) -> Result<(), Fail> {
    let alloc = rt.alloc();
    let catalogue = sea_catalogue(alloc)?;
    catalogue.validate()?;
    let job = SEED;
    assert!(rt; fits(&catalogue, &job));
    let JobKind::Seed = job.kind else {
        return Ok(());
    };
    let places = all_places(alloc, &catalogue, &job)?;
    let expected = [
        place(0, 1, 0, 0),
        place(0, 2, 0, 0),
        place(0, 2, 0, 1),
        place(1, 1, 0, 0),
        place(1, 2, 0, 0),
        place(1, 2, 0, 1),
    ];
    assert!(rt; places.as_slice() == expected.as_slice());
    Ok(())
}

fn with_threads(threads: u32) -> Job {
    Job { threads, ..SEED }
}

/// A seed of no matrix.
fn of_no_matrix() -> Job {
    let cover = Cover {
        z_start: 2,
        z_stop: 1,
        ..COVER
    };
    Job { cover, ..SEED }
}

/// Whether a seed fits and has no places.
fn has_no_places(catalogue: &Catalogue, job: &Job) -> bool
    requires { IsValid catalogue.now }
{
    let JobKind::Seed = job.kind else {
        return false;
    };
    fits(catalogue, job) && count(catalogue, job) == 0
}

#[test]
fn a_job_fits_with_eight_threads_and_without_places(rt: HostRuntime) -> Result<(), Fail> {
    let catalogue = sea_catalogue(rt.alloc())?;
    catalogue.validate()?;
    assert!(rt; fits(&catalogue, &with_threads(8)));
    assert!(rt; !fits(&catalogue, &with_threads(9)));
    assert!(rt; has_no_places(&catalogue, &of_no_matrix()));
    Ok(())
}
