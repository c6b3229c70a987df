//! The pixels of a pixmap.
ghost use Rattle.std.specs.Prelude.{◌≡◌, ◌+◌, ◌*◌, ℕ, List, length, drop, IfSome, MatchOption, option_copied};
ghost use Rattle.ppm_reading.specs.Form.{IsPixmap};
ghost use Rattle.ppm_reading.specs.Reading.{pixels_of};

use crate::head::after_head;

/// The pixels of a pixmap of this width and height.
#[tactic(auto, unfolding(crate::specs::Reading::pixels_of))]
fn pixels_of(text: &[u8], width: u32, height: u32) -> Option<&[u8]>
    ensures { option_copied result ≡ pixels_of width height text.now }
{
    let pixels = after_head(text, width, height)?;
    if pixels.len() as u128 != 3 * u128::from(width) * u128::from(height) {
        return None;
    }
    Some(pixels)
}

/// Where the pixels begin of a binary pixmap of this width and height in pixels, with 255 as its maxval, so that each pixel is three bytes
/// and nothing follows the last one; `None` exactly where the bytes are no such pixmap (Netpbm's ppm(5)).
pub fn pixels_at(text: &[u8], width: u32, height: u32) -> Option<usize>
    ensures form { MatchOption result ((pixels : List ℕ) → ¬ IsPixmap width height text.now pixels) (λ at. IsPixmap width height text.now (drop at text.now)) }
    ensures size { IfSome result (λ at. at + 3 * width * height ≡ length text.now) }
{
    let pixels = pixels_of(text, width, height)?;
    Some(text.len() - pixels.len())
}
