//! job_forms, and served_covers
ghost use Rattle.catalog.specs.Valid.{IsValid};

use catalog::Catalogue;
use fixtures::sea_catalogue;
use job_forms::{JobFault, JobField, read_cover};
use matrix_geometry::{Box9, Filter};
use served_covers::is_cover_of;
use std::alloc::Global;
use std::test::Fail;
use truncation_list::Cover;

const TEXT: &[u8] =
    br#"{"layer":"sea","grid":"tiny","zoomStart":0,"zoomStop":2,"bounds":["0","12","4.000004","16"],"format":"image/x-portable-pixmap","style":"grey","dimensions":{"level":"10"},"type":7}"#;

const COVER: Cover = Cover {
    layer: 0,
    grid: 0,
    z_start: 0,
    z_stop: 2,
    bounds: Some(Box9 {
        min_x: 0,
        min_y: 12_000_000_000,
        max_x: 4_000_004_000,
        max_y: 16_000_000_000,
    }),
    filter: Filter {
        style: Some(0),
        dims: [None, Some(1), None, None],
    },
};

/// Whether a text is read so on a catalogue.
fn is_read(
    alloc: Global,
    catalogue: &Catalogue,
    text: &[u8],
    expected: Result<Cover, JobFault>,
) -> bool
    requires { IsValid catalogue.now }
{
    read_cover(alloc, catalogue, text) == expected
}

#[test]
fn a_cover_is_read_or_has_its_first_fault(rt: HostRuntime) -> Result<(), Fail> {
    let alloc = rt.alloc();
    let catalogue = sea_catalogue(alloc)?;
    catalogue.validate()?;
    assert!(rt; is_read(alloc, &catalogue, TEXT, Ok(COVER)));
    let missing = Err(JobFault::Missing(JobField::Layer));
    assert!(rt; is_read(alloc, &catalogue, b"{\"grid\":\"none\"}", missing));
    Ok(())
}

/// The cover with these values.
fn with_values(dims: [Option<u32>; 4]) -> Cover {
    let filter = Filter {
        dims,
        ..COVER.filter
    };
    Cover { filter, ..COVER }
}

fn deeper() -> Cover {
    Cover { z_stop: 3, ..COVER }
}

#[test]
fn a_cover_of_a_catalogue_has_values_of_its_dimensions(rt: HostRuntime) -> Result<(), Fail> {
    let catalogue = sea_catalogue(rt.alloc())?;
    for (dims, expected) in [
        ([None, Some(1), None, None], true),
        ([None, Some(2), None, None], false),
        ([None, None, Some(0), None], false),
    ] {
        assert!(rt; is_cover_of(&catalogue, &with_values(dims)) == expected);
    }
    assert!(rt; !is_cover_of(&catalogue, &deeper()));
    Ok(())
}
