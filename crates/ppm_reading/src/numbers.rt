//! Numbers in decimal.
ghost use Rattle.std.specs.Char.{is_ascii_digit, IsAsciiDigit};
ghost use Rattle.std.specs.List.{prefix_len};
ghost use Rattle.std.specs.Prelude.{◌≡◌, ◌≤◌, ◌<◌, ℕ, length, take, slice_index, option_copied};
ghost use Rattle.std.specs.Str.Parse.{digits_value};
ghost use Rattle.ppm_reading.specs.Reading.{after_number};

/// How many digits a text begins with.
fn digits_len(text: &[u8]) -> usize
    ensures count { result ≡ prefix_len is_ascii_digit text.now }
    ensures within { result ≤ length text.now }
    ensures digits { (k : ℕ) → k < result → IsAsciiDigit (slice_index text.now k) }
{
    for at in 0..text.len() {
        if !text[at].is_ascii_digit() {
            return at;
        }
    }
    text.len()
}

/// The number that at most 9 digits write.
fn number_of(digits: &[u8]) -> u64
    requires few { length digits.now ≤ 9 }
    requires digits { (k : ℕ) → k < length digits.now → IsAsciiDigit (slice_index digits.now k) }
    ensures { result ≡ digits_value 10 digits.now }
{
    let mut number = 0;
    for digit in digits {
        number = 10 * number + u64::from(*digit - b'0');
    }
    number
}

/// What follows 1 to 9 digits that write this number and no further digit.
pub fn after_number(text: &[u8], number: u32) -> Option<&[u8]>
    ensures { option_copied result ≡ after_number number text.now }
{
    let count = digits_len(text);
    if count == 0 || count > 9 {
        return None;
    }
    if number_of(&text[..count]) != u64::from(number) {
        return None;
    }
    Some(&text[count..])
}
