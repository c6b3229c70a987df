//! The pixels of an encoded tile, laid under those of another.
ghost use Rattle.std.specs.Prelude.{◌≡◌, ◌<◌, ◌≤◌, ◌+◌, ◌*◌, ◌^◌, false, get_or, if◌then◌else◌, length, slice_set};
ghost use Rattle.layer_recipes.specs.Composite.{is_same, pixel_in};
ghost use Rattle.layer_recipes.specs.Overlaid.{AreLaid, laid, with_pixel};

use raster_field::Colour;

fn byte(text: &[u8], at: usize) -> u8
    ensures { result ≡ get_or text.now at 0 }
{
    match text.get(at) {
        Some(byte) => *byte,
        None => 0,
    }
}

fn pixel_in(text: &[u8], at: usize) -> Colour
    requires { at + 3 < 2 ^ 63 }
    ensures { result ≡ pixel_in text.now at }
{
    Colour {
        r: byte(text, at),
        g: byte(text, at + 1),
        b: byte(text, at + 2),
    }
}

fn put(text: &mut [u8], at: usize, colour: Colour)
    requires { at + 3 ≤ length text.old }
    ensures { text.new ≡ with_pixel at colour text.old }
{
    text[at] = colour.r;
    text[at + 1] = colour.g;
    text[at + 2] = colour.b;
}

fn is_same(a: Colour, b: Colour) -> bool
    ensures { result ≡ is_same a b }
{
    a == b
}

/// Lays a pixel under what is there, which hides it unless it is clear.
fn lay_pixel(
    under: &[u8],
    start: usize,
    place: usize,
    key: Colour,
    text: &mut [u8],
    clear: &mut [bool],
)
    requires place { place < length clear.old }
    requires room { length text.old ≡ start + 3 * length clear.old }
    ensures text { text.new ≡ (if get_or clear.old place false then with_pixel (start + 3 * place) (pixel_in under.now (start + 3 * place)) text.old else text.old) }
    ensures clear { clear.new ≡ (if get_or clear.old place false then slice_set clear.old place (is_same (pixel_in under.now (start + 3 * place)) key) else clear.old) }
{
    if !clear[place] {
        return;
    }
    let colour = pixel_in(under, start + 3 * place);
    put(text, start + 3 * place, colour);
    clear[place] = is_same(colour, key);
}

/// Lays all pixels of a text under those of another, which begin at `start` as they do.
pub fn lay_pixels(under: &[u8], start: usize, key: Colour, text: &mut [u8], clear: &mut [bool])
    requires { length text.old ≡ start + 3 * length clear.old }
    ensures { AreLaid start (length clear.old) key under.now text.old text.new clear.old clear.new }
{
    for place in 0..clear.len() {
        lay_pixel(under, start, place, key, text, clear);
    }
}
