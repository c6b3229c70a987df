//! The head of a pixmap, and the pixels behind it.
ghost use Rattle.std.specs.Prelude.{◌≡◌, IfSome, decimal, option_copied, true};
ghost use Rattle.png_text.specs.Picture.{IsPicture};
ghost use Rattle.tile_png.specs.Reading.{are_pixels, behind, behind_head, if_pixels, pixels_in};

use itoa::Buffer;

/// A text without this front, where it begins so.
fn behind<'a>(front: &[u8], text: &'a [u8]) -> Option<&'a [u8]>
    ensures { option_copied result ≡ behind front.now text.now }
{
    text.strip_prefix(front)
}

/// A text without this number in decimal, where it begins so.
fn behind_number(number: u32, text: &[u8]) -> Option<&[u8]>
    ensures { option_copied result ≡ behind (decimal number) text.now }
{
    let mut buffer = Buffer::new();
    behind(buffer.format(number).as_bytes(), text)
}

/// What follows the head of a pixmap of this size.
#[tactic(auto, unfolding(crate::specs::Reading::behind_head))]
fn behind_head(width: u32, height: u32, text: &[u8]) -> Option<&[u8]>
    ensures { option_copied result ≡ behind_head width height text.now }
{
    let text = behind(b"P6\n", text)?;
    let text = behind_number(width, text)?;
    let text = behind(b" ", text)?;
    let text = behind_number(height, text)?;
    behind(b"\n255\n", text)
}

/// Whether there are as many bytes as a picture of this size has in its pixels.
fn are_pixels(width: u32, height: u32, bytes: &[u8]) -> bool
    ensures test { result ≡ are_pixels width height bytes.now }
    ensures picture { result ≡ true → IsPicture width height bytes.now }
{
    if !(1..=16384).contains(&width) || !(1..=16384).contains(&height) {
        return false;
    }
    bytes.len() == 3 * width as usize * height as usize
}

/// The pixels of a pixmap of this size, where the text is one.
#[tactic(auto, unfolding(crate::specs::Reading::pixels_in))]
pub fn pixels_in(width: u32, height: u32, text: &[u8]) -> Option<&[u8]>
    ensures pixels { option_copied result ≡ pixels_in width height text.now }
    ensures picture { IfSome result (λ p. IsPicture width height p.now) }
{
    let bytes = behind_head(width, height, text)?;
    if !are_pixels(width, height, bytes) {
        return None;
    }
    Some(bytes)
}
