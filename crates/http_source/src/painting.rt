//! How the picture that a renderer answered comes into a raster.
ghost use Rattle.std.specs.Prelude.{◌≡◌, ◌+◌, ◌*◌, ◌<◌, ◌≤◌, ◌++◌, drop, length, take};
ghost use Rattle.http_source.specs.Painted.{Paints};
ghost use Rattle.raster_field.specs.Rasters.{IsWhole};

use ppm_reading::pixels_at;
use raster_field::Raster;

/// The bytes of a row of pixels.
fn row_at(pixels: &[u8], y: u32, size: usize) -> &[u8]
    requires there { (y + 1) * size ≤ length pixels.now }
    requires small { size ≤ 12672 }
    ensures row { result.now ≡ take size (drop (y * size) pixels.now) }
    ensures len { length result.now ≡ size }
{
    let (_, from) = pixels.split_at(y as usize * size);
    let (row, _) = from.split_at(size);
    row
}

/// Sets a row of a raster of which the rows above it are set.
fn put_row(into: &mut Raster, y: u32, row: &[u8])
    requires y { y < into.old.height }
    requires row { length row.now ≡ into.old.width * 3 }
    requires whole { IsWhole into.old }
    ensures width { into.new.width ≡ into.old.width }
    ensures height { into.new.height ≡ into.old.height }
    ensures whole { IsWhole into.new }
    ensures rows { take ((y + 1) * (into.old.width * 3)) into.new.bytes ≡ take (y * (into.old.width * 3)) into.old.bytes ++ row.now }
{
    into.set_row(y, row);
}

/// Sets all rows of a raster.
fn fill(pixels: &[u8], into: &mut Raster)
    requires pixels { length pixels.now ≡ into.old.height * (into.old.width * 3) }
    requires whole { IsWhole into.old }
    ensures width { into.new.width ≡ into.old.width }
    ensures height { into.new.height ≡ into.old.height }
    ensures bytes { into.new.bytes ≡ pixels.now }
{
    let size = into.width() as usize * 3;
    'rows: for y in 0..into.height() {
        put_row(into, y, row_at(pixels, y, size));
    }
}

/// Leaves in a raster the pixels of the binary pixmap of its size that a body is (Netpbm's ppm(5), of maxval 255); `None` exactly where the
/// body is no such pixmap, and then the raster stays.
pub fn paint(body: &[u8], into: &mut Raster) -> Option<()>
    ensures { Paints into.old body.now into.new result }
{
    let width = into.width();
    let height = into.height();
    match pixels_at(body, width, height) {
        Some(at) => {
            fill(&body[at..], into);
            Some(())
        }
        None => None,
    }
}
