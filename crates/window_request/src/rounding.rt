//! Rounding of fractions.
ghost use Rattle.std.specs.Prelude.{◌≡◌, ◌+◌, ◌*◌, ◌<◌, ◌≤◌, ◌^◌};
ghost use Rattle.window_request.specs.Decimals.{IsRounded};

/// A fraction n / d, below 10^18, to so many places, in units of the last one; halves go up. Digit by digit, as in a long division,
/// since n times the power of ten may not fit.
pub fn rounded(n: u128, d: u128, places: u32) -> u128
    requires some { 0 < d }
    requires denominator { d ≤ 10 ^ 36 }
    requires size { n < 10 ^ 18 * d }
    requires places { places ≤ 15 }
    ensures rounded { IsRounded n d places result }
    ensures small { result ≤ 10 ^ (18 + places) }
{
    let mut units = n / d;
    let mut rest = n % d;
    'places: for _ in 0..places {
        let tens = 10 * rest;
        units = 10 * units + tens / d;
        rest = tens % d;
    }
    if d <= 2 * rest { units + 1 } else { units }
}
