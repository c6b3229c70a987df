//! Numbers of any count of digits, compared with a limit by value, and those of up to 18, which fit in 64 bits.
ghost use Rattle.std.specs.Char.{is_ascii_digit};
ghost use Rattle.std.specs.List.{list_all};
ghost use Rattle.std.specs.Prelude.{◌≡◌, ◌^◌, ◌<◌, ◌≤◌, true, length, min, IfSome};
ghost use Rattle.std.specs.Str.Parse.{AllDigits, digits_value};
ghost use Rattle.wmts_kvp.specs.Rows.{is_number, below};

/// Greater than each row and column that a matrix can have.
const MOST: u64 = 1 << 32;

fn are_digits(text: &[u8]) -> bool
    ensures { result ≡ list_all is_ascii_digit text.now }
{
    text.iter().all(|byte| byte.is_ascii_digit())
}

/// Whether a text is one or more ASCII digits.
pub fn is_number(text: &[u8]) -> bool
    ensures { result ≡ is_number text.now }
{
    !text.is_empty() && are_digits(text)
}

/// The number that digits spell, or `MOST` where it is greater.
#[tactic(auto, using(crate::proofs::Numbers::capped_digit, crate::proofs::Numbers::digits_left, crate::proofs::Numbers::digit_code))]
fn capped(digits: &[u8]) -> u64
    requires { AllDigits 10 digits.now }
    ensures { result ≡ min (digits_value 10 digits.now) (2 ^ 32) }
{
    let mut value: u64 = 0;
    for digit in digits {
        value = (value * 10 + u64::from(*digit - b'0')).min(MOST);
    }
    value
}

/// The number that digits spell, however many, where it is below the limit.
#[tactic(auto, using(crate::proofs::Numbers::digits_of_number))]
pub fn below(limit: u32, digits: &[u8]) -> Option<u32>
    requires { is_number digits.now ≡ true }
    ensures value { result ≡ below limit (digits_value 10 digits.now) }
    ensures bound { IfSome result (λ number. number < limit) }
{
    let number = capped(digits);
    if number < u64::from(limit) {
        Some(number as u32)
    } else {
        None
    }
}

/// The number that so many digits spell.
#[tactic(auto, using(crate::proofs::ShortNumbers::next_digit, crate::proofs::ShortNumbers::short_value, crate::proofs::Numbers::digits_left, crate::proofs::Numbers::digit_code))]
pub fn short_number(digits: &[u8]) -> u64
    requires digits { AllDigits 10 digits.now }
    requires short { length digits.now ≤ 18 }
    ensures { result ≡ digits_value 10 digits.now }
{
    let mut value: u64 = 0;
    for digit in digits {
        value = value * 10 + u64::from(*digit - b'0');
    }
    value
}
