//! raster_field: metatiles of a catalogue with dimensions
ghost use Rattle.catalog.specs.Valid.{IsValid};

use catalog::Catalogue;
use fixtures::{FIRST, sea_catalogue};
use matrix_geometry::Theme;
use metatile_plan::MetaKey;
use raster_field::is_meta;
use std::test::Fail;

/// Whether the first metatile with these values is of a catalogue.
fn has_meta(catalogue: &Catalogue, dims: [u32; 4]) -> bool
    requires { IsValid catalogue.now }
{
    let theme = Theme {
        dims,
        ..FIRST.theme
    };
    is_meta(catalogue, &MetaKey { theme, ..FIRST })
}

// There are two dimensions of two values.
#[test]
fn a_metatile_has_a_value_of_each_dimension(rt: HostRuntime) -> Result<(), Fail> {
    let catalogue = sea_catalogue(rt.alloc())?;
    catalogue.validate()?;
    for (dims, expected) in [
        ([0, 0, 0, 0], true),
        ([1, 1, 0, 0], true),
        ([2, 0, 0, 0], false),
        ([0, 2, 0, 0], false),
        ([0, 0, 1, 0], false),
    ] {
        assert!(rt; has_meta(&catalogue, dims) == expected);
    }
    Ok(())
}
