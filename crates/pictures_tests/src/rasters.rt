//! Tests of raster_field.
use catalog::Catalogue;
use fixtures::FIRST;
use raster_field::{Colour, Raster, colour_of, field_value, window_at};
use std::test::Fail;

// The first value under number 1 is 7 + 17 * 4 + 13 * 4.
#[test]
fn the_first_value_is_told(rt: HostRuntime) -> Result<(), Fail> {
    let catalogue = Catalogue::demo(rt.alloc())?;
    let value = field_value(&catalogue, 0, 1, &FIRST, 0, 0);
    assert!(rt; value == 0x7f);
    let grey = Colour {
        r: 0x7f,
        g: 0x7f,
        b: 0x7f,
    };
    assert!(rt; colour_of(catalogue.style_of(&FIRST.theme), value) == grey);
    Ok(())
}

/// Whether a raster of two by two pixels has a pixel and a row once they were set.
fn has_what_was_set(raster: &mut Raster) -> bool {
    if raster.width() != 2 {
        return false;
    }
    if raster.height() != 2 {
        return false;
    }
    let red = Colour { r: 255, g: 0, b: 0 };
    raster.set(1, 1, red);
    let is_red = raster.get(1, 1) == red;
    raster.set_row(0, &[1, 2, 3, 4, 5, 6]);
    is_red && raster.part(1, 0, 1) == [4u8, 5, 6].as_slice()
}

#[test]
fn a_raster_is_what_was_set(rt: HostRuntime) -> Result<(), Fail> {
    let catalogue = Catalogue::demo(rt.alloc())?;
    let mut raster = Raster::new(rt.alloc(), &window_at(&catalogue, &FIRST))?;
    assert!(rt; has_what_was_set(&mut raster));
    Ok(())
}
