//! The decimal text of a fraction.
ghost use Rattle.std.specs.Prelude.{◌≡◌, ◌+◌, ◌*◌, ◌<◌, ◌≤◌, ◌^◌, ◌∷◌, [], OnOk, IfOk, pos, ◌/◌, if◌then◌else◌};
ghost use Rattle.window_request.specs.Decimals.{IsPrintable, IsDecimalOf, Writes, Pads};

use crate::rounding::rounded;
use itoa::Buffer;
use std::alloc::{AllocError, Global};

/// How many digits stand behind the point.
const PLACES: u32 = 12;

fn power(exponent: u32) -> u64
    requires { exponent ≤ 15 }
    ensures value { result ≡ 10 ^ exponent }
    ensures some { 0 < result }
{
    10u64.pow(exponent)
}

/// The digit of a rest at a place of so much worth, as text.
fn digit(rest: u64, unit: u64) -> u8
    requires some { 0 < unit }
    requires small { rest < 10 * unit }
    ensures { result ≡ 48 + rest / unit }
{
    b'0' + (rest / unit) as u8
}

/// Puts so many digits of a number behind bytes, zeros at the front.
fn pad(number: u64, count: u32, into: &mut Vec<u8>) -> Result<(), AllocError>
    requires small { number < 10 ^ count }
    requires count { count ≤ 15 }
    ensures { OnOk result (Pads into.old.items number count into.new.items) }
{
    let mut rest = number;
    'digits: for i in 0..count {
        let unit = power(count - 1 - i);
        into.push(digit(rest, unit))?;
        rest = rest % unit;
    }
    Ok(())
}

/// A number of so many units of 10^-places, as a whole number and what is behind the point.
fn parts(units: u128, places: u32) -> (u64, u64)
    requires places { places ≤ 15 }
    requires size { units ≤ 10 ^ (18 + places) }
    ensures value { result.0 * 10 ^ places + result.1 ≡ units }
    ensures part { result.1 < 10 ^ places }
    ensures whole { result.0 < 2 ^ 64 }
{
    let unit = u128::from(power(places));
    ((units / unit) as u64, (units % unit) as u64)
}

/// A minus where the number is negative.
fn sign(alloc: Global, negative: bool) -> Result<Vec<u8>, AllocError>
    ensures { IfOk result (λ text. text.items ≡ (if negative then 45 ∷ [] else [])) }
{
    let mut text = Vec::new(alloc);
    if negative {
        text.push(b'-')?;
    }
    Ok(text)
}

/// The text of a number of so many units of 10^-places, with a minus where it is negative.
fn number_text(
    alloc: Global,
    negative: bool,
    units: u128,
    places: u32,
) -> Result<Vec<u8>, AllocError>
    requires places { places ≤ 15 }
    requires size { units ≤ 10 ^ (18 + places) }
    ensures { IfOk result (λ text. Writes negative units places text.items) }
{
    let (whole, part) = parts(units, places);
    let mut text = sign(alloc, negative)?;
    let mut buffer = Buffer::new();
    text.extend_from_slice(buffer.format(whole).as_bytes())?;
    text.push(b'.')?;
    pad(part, places, &mut text)?;
    Ok(text)
}

/// The text of the fraction n / d with 12 digits behind the point, rounded to the nearest; halves go away from 0. A negative fraction has a
/// minus, also where it is rounded to 0. `AllocError` where memory runs out.
pub fn decimal_text(alloc: Global, n: i128, d: u128) -> Result<Vec<u8>, AllocError>
    requires { IsPrintable (record { n = n; d = pos d }) }
    ensures { IfOk result (λ text. IsDecimalOf (record { n = n; d = pos d }) text.items) }
{
    let units = rounded(n.unsigned_abs(), d, PLACES);
    number_text(alloc, n < 0, units, PLACES)
}
