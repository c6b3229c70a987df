//! The head of a pixmap.
ghost use Rattle.std.specs.Prelude.{◌≡◌, option_copied};
ghost use Rattle.ppm_reading.specs.Reading.{after_magic, after_head};

use crate::gaps::{after_gap, after_space};
use crate::numbers::after_number;

fn after_magic(text: &[u8]) -> Option<&[u8]>
    ensures { option_copied result ≡ after_magic text.now }
{
    match text {
        [b'P', b'6', rest @ ..] => Some(rest),
        _ => None,
    }
}

/// What follows the head of a pixmap of this width and height, with 255 as its maxval.
pub fn after_head(text: &[u8], width: u32, height: u32) -> Option<&[u8]>
    ensures { option_copied result ≡ after_head width height text.now }
{
    let text = after_gap(after_magic(text)?)?;
    let text = after_gap(after_number(text, width)?)?;
    let text = after_gap(after_number(text, height)?)?;
    after_space(after_number(text, 255)?)
}
