//! Numbers in a pixmap's head, in decimal.
ghost use Rattle.std.specs.Char.{IsAsciiDigit, is_ascii_digit};
ghost use Rattle.std.specs.List.{prefix_len};
ghost use Rattle.std.specs.Prelude.{◌≡◌, ◌≤◌, ◌<◌, ℕ, drop, length, slice_index};
ghost use Rattle.std.specs.Str.Parse.{digits_value};
ghost use Rattle.tile_png.specs.Reading.{behind_digits, height_in, number_in, width_in};

/// How many digits a text begins with.
fn digits_len(text: &[u8]) -> usize
    ensures count { result ≡ prefix_len is_ascii_digit text.now }
    ensures within { result ≤ length text.now }
    ensures digits { (k : ℕ) → k < result → IsAsciiDigit (slice_index text.now k) }
{
    for at in 0..text.len() {
        if !text[at].is_ascii_digit() {
            return at;
        }
    }
    text.len()
}

/// The number that at most five digits write.
fn value_of(digits: &[u8]) -> u32
    requires few { length digits.now ≤ 5 }
    requires digits { (k : ℕ) → k < length digits.now → IsAsciiDigit (slice_index digits.now k) }
    ensures { result ≡ digits_value 10 digits.now }
{
    let mut value = 0;
    for digit in digits {
        value = 10 * value + u32::from(*digit - b'0');
    }
    value
}

/// The number that a text begins with; 0 where it begins with none, or with one of more than five digits.
fn number_in(text: &[u8]) -> u32
    ensures { result ≡ number_in text.now }
{
    let count = digits_len(text);
    if count > 5 {
        return 0;
    }
    value_of(&text[..count])
}

/// What follows the digits that a text begins with.
fn behind_digits(text: &[u8]) -> &[u8]
    ensures { result.now ≡ behind_digits text.now }
{
    &text[digits_len(text)..]
}

/// A text without its first bytes.
fn skip(text: &[u8], count: usize) -> &[u8]
    ensures { result.now ≡ drop count text.now }
{
    if count > text.len() {
        return &[];
    }
    &text[count..]
}

/// The width that a pixmap's head tells.
pub fn width_in(text: &[u8]) -> u32
    ensures { result ≡ width_in text.now }
{
    number_in(skip(text, 3))
}

/// The height that a pixmap's head tells.
pub fn height_in(text: &[u8]) -> u32
    ensures { result ≡ height_in text.now }
{
    number_in(skip(behind_digits(skip(text, 3)), 1))
}
