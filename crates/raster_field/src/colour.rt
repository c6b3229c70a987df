//! Colours, and the colour of a value in a style.
ghost use Rattle.std.specs.Prelude.{◌≡◌};
ghost use Rattle.raster_field.specs.Picture.{colour_of};

use catalog::Style;

/// The colour of a pixel, a byte each of red, green and blue.
#[derive(Clone, Copy, PartialEq, Eq)]
pub struct Colour {
    pub r: u8,
    pub g: u8,
    pub b: u8,
}

/// The colour of a value in a style: that of the last break from which the value is, and grey without breaks.
pub fn colour_of(style: &Style, value: u8) -> Colour
    ensures { result ≡ colour_of style.now.breaks value }
{
    let mut colour = Colour {
        r: value,
        g: value,
        b: value,
    };
    for step in style.breaks.as_slice() {
        if step.from <= value {
            colour = Colour {
                r: step.r,
                g: step.g,
                b: step.b,
            };
        }
    }
    colour
}
