//! How a decimal number is read from a text.
ghost use Rattle.std.specs.Char.{IsAsciiDigit};
ghost use Rattle.std.specs.Int.{w128};
ghost use Rattle.std.specs.Prelude.{◌≡◌, ℕ, ◌+◌, ◌<◌, ◌≤◌, ◌^◌, length, slice_index, unsigned_abs, FitsSigned, MatchResult};
ghost use Rattle.std.specs.Str.Parse.{digits_value_after, starts_with_minus};
ghost use Rattle.exact_ratio.specs.Decimal.{AreDigits, decimal_of, digits_end, left_at, part_digits, scaled_of, sign_len, signed, unless_left, whole_digits};
ghost use Rattle.exact_ratio.specs.Form.{IsDecimalText, IsFaultOf};

use crate::decimal::{Decimal, DecimalFault};

/// Where the digits end that stand at this place.
fn digits_end(text: &[u8], from: usize) -> usize
    requires { from ≤ length text.now }
    ensures value { result ≡ digits_end text.now from }
    ensures within { result ≤ length text.now }
    ensures behind { from ≤ result }
    ensures digits { (k : ℕ) → from ≤ k → k < result → IsAsciiDigit (slice_index text.now k) }
    ensures stops { result < length text.now → ¬ IsAsciiDigit (slice_index text.now result) }
{
    for place in from..text.len() {
        if !text[place].is_ascii_digit() {
            return place;
        }
    }
    text.len()
}

/// The number that digits write after the `before` digits of another one.
fn number_after(number: u64, before: usize, digits: &[u8]) -> u64
    requires small { number < 10 ^ before }
    requires few { before + length digits.now ≤ 18 }
    requires digits { AreDigits digits.now }
    ensures value { result ≡ digits_value_after 10 number digits.now }
    ensures small { result < 10 ^ (before + length digits.now) }
{
    let mut all = number;
    for digit in digits {
        all = 10 * all + u64::from(*digit - b'0');
    }
    all
}

fn signed(negative: bool, number: u64) -> i128
    ensures value { result ≡ signed negative number }
    ensures size { unsigned_abs result ≡ number }
    ensures fits { FitsSigned w128 result }
{
    let units = i128::from(number);
    if negative { -units } else { units }
}

/// The decimal number of a sign, the digits before the point and those after it.
fn scaled(negative: bool, whole: &[u8], part: &[u8]) -> Result<Decimal, DecimalFault>
    requires whole { AreDigits whole.now }
    requires part { AreDigits part.now }
    ensures { result ≡ scaled_of negative whole.now part.now }
{
    if part.len() > 15 || whole.len() > 18 - part.len() {
        return Err(DecimalFault::TooLong);
    }
    let number = number_after(0, 0, whole);
    let number = number_after(number, whole.len(), part);
    Ok(Decimal {
        units: signed(negative, number),
        places: part.len() as u32,
    })
}

fn is_negative(text: &[u8]) -> bool
    ensures { result ≡ starts_with_minus text.now }
{
    !text.is_empty() && text[0] == b'-'
}

/// The decimal number after a sign, which ends at the place `start`.
fn read_behind_sign(text: &[u8], start: usize, negative: bool) -> Result<Decimal, DecimalFault>
    requires start { start ≡ sign_len text.now }
    requires some { start < length text.now }
    ensures value { result ≡ unless_left
        (left_at text.now start)
        (scaled_of negative (whole_digits text.now start) (part_digits text.now (digits_end text.now start))) }
    ensures told { MatchResult result (λ _. IsDecimalText text.now) (IsFaultOf text.now) }
{
    let point = digits_end(text, start);
    if point == start {
        return Err(DecimalFault::NotADigit(start));
    }
    if point == text.len() {
        return scaled(negative, &text[start..point], &[]);
    }
    if text[point] != b'.' {
        return Err(DecimalFault::NotADigit(point));
    }
    let end = digits_end(text, point + 1);
    if end == point + 1 {
        return Err(DecimalFault::NotADigit(end));
    }
    if end < text.len() {
        return Err(DecimalFault::NotADigit(end));
    }
    scaled(negative, &text[start..point], &text[point + 1..end])
}

impl Decimal {
    /// The decimal number that a text is: an optional `-`, digits, and optionally a point and digits; up to 18 digits, of
    /// which up to 15 stand after the point. `Empty` where no byte stands after the sign; `NotADigit` with the first
    /// place at which this form is left; `TooLong` where the form is met with more digits.
    #[tactic(auto, unfolding(crate::specs::Decimal::decimal_of))]
    pub fn read(text: &[u8]) -> Result<Decimal, DecimalFault>
        ensures value { result ≡ decimal_of text.now }
        ensures told { MatchResult result (λ _. IsDecimalText text.now) (IsFaultOf text.now) }
    {
        let negative = is_negative(text);
        let start = usize::from(negative);
        if text.len() == start {
            return Err(DecimalFault::Empty);
        }
        read_behind_sign(text, start, negative)
    }
}
