//! How fractions are brought to lowest terms.
ghost use Rattle.std.specs.Int.{IsGcd};
ghost use Rattle.std.specs.Prelude.{◌≡◌, ◌<◌, ◌^◌, ◌*ℤ◌, ◌<ℤ◌, pos, IfSome};
ghost use Rattle.exact_ratio.specs.Lowest.{gcd, least_i128, lowest, lowest_of};

use crate::ratio::Ratio;

/// The greatest common divisor, by Euclid's algorithm.
fn gcd(a: u128, b: u128) -> u128
    ensures value { result ≡ gcd a b }
    ensures divisor { IsGcd a b result }
{
    let mut x = a;
    let mut y = b;
    while y != 0 {
        let rest = x % y;
        x = y;
        y = rest;
    }
    x
}

impl Ratio {
    /// The fraction n / d in lowest terms; `None` exactly where d is below 1 or n is `i128::MIN`.
    pub fn new(n: i128, d: i128) -> Option<Ratio>
        ensures lowest { result ≡ lowest_of n d }
        ensures same_value { IfSome result (λ f. (f.n *ℤ d) ≡ (n *ℤ f.d)) }
    {
        if d < 1 {
            return None;
        }
        if n == i128::MIN {
            return None;
        }
        Some(Ratio::lowest(n, d))
    }

    /// The fraction n / d in lowest terms.
    pub fn lowest(n: i128, d: i128) -> Ratio
        requires positive { pos 0 <ℤ d }
        requires bounded { least_i128 <ℤ n }
        ensures lowest { result ≡ lowest n d }
        ensures same_value { (result.n *ℤ d) ≡ (n *ℤ result.d) }
        ensures stays_positive { pos 0 <ℤ n → pos 0 <ℤ result.n }
    {
        let divisor = gcd(n.unsigned_abs(), d.unsigned_abs()) as i128;
        Ratio {
            n: n / divisor,
            d: d / divisor,
        }
    }
}
