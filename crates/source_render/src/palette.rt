//! Rows of colours.
ghost use Rattle.std.specs.Prelude.{◌≡◌, ◌+◌, ◌*◌, ◌≤◌, ◌++◌, length, take};
ghost use Rattle.raster_field.specs.TileText.{bytes_of};
ghost use Rattle.source_render.specs.Shown.{IsPalette};

use catalog::Style;
use raster_field::{Colour, colour_of};

/// The colour of each value in a style.
pub fn palette_of(style: &Style) -> [Colour; 256]
    ensures { IsPalette style.now.breaks result }
{
    let mut palette = [Colour { r: 0, g: 0, b: 0 }; 256];
    for value in 0..256u32 {
        palette[value as usize] = colour_of(style, value as u8);
    }
    palette
}

/// Puts the bytes of a pixel.
pub fn put_pixel(into: &mut [u8], at: usize, colour: Colour)
    requires { at + 3 ≤ length into.old }
    ensures pixel { take (at + 3) into.new ≡ take at into.old ++ bytes_of colour }
    ensures len { length into.new ≡ length into.old }
{
    into[at] = colour.r;
    into[at + 1] = colour.g;
    into[at + 2] = colour.b;
}
