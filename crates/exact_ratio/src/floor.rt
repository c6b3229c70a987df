//! Division that rounds down, also below 0, where `/` would round towards 0.
ghost use Rattle.std.specs.Int.{int_div_euclid};
ghost use Rattle.std.specs.Prelude.{◌≡◌, ◌≤ℤ◌, pos};
ghost use Rattle.exact_ratio.specs.Fractions.{IsFloor};

/// The greatest whole number at or below `n / d`.
pub fn floor_div(n: i128, d: i128) -> i128
    requires { pos 1 ≤ℤ d }
    ensures floor { IsFloor n d result }
    ensures value { result ≡ int_div_euclid n d }
{
    n.div_euclid(d)
}
