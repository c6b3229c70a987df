//! The type of a fraction, which is always in lowest terms.
ghost use Rattle.std.specs.Prelude.{◌≡◌, pos};

use std::marker::Model;

/// A fraction in lowest terms. Contracts see its `n` and `d`.
#[derive(Clone, Copy, PartialEq, Eq)]
pub struct Ratio {
    /// The numerator.
    pub n: i128,
    /// The denominator, at least 1.
    pub d: i128,
}

impl Model for Ratio {
    ghost use Rattle.exact_ratio.specs.Values.{Fraction};

    ghost Value = { Fraction };

    ghost use Rattle.exact_ratio.specs.Lowest.{IsLowest};

    ghost view = { λ a. record { n = a.n; d = a.d } };

    ghost invariant = { λ a. IsLowest (record { n = a.n; d = a.d }) };

    ghost inverse = { λ f. record { n = f.n; d = f.d } };
}

impl Ratio {
    /// The fraction of a whole number.
    pub fn whole(n: i128) -> Ratio
        ensures { result ≡ record { n = n; d = pos 1 } }
    {
        Ratio { n, d: 1 }
    }
}
