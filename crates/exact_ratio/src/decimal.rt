//! The type of a decimal number, and why a text is none.
use std::marker::Model;

/// A decimal number, worth `units / 10^places`. Contracts see these two.
#[derive(Clone, Copy, PartialEq, Eq)]
pub struct Decimal {
    /// Below 10^18 in size.
    pub units: i128,
    /// At most 15.
    pub places: u32,
}

impl Model for Decimal {
    ghost use Rattle.std.specs.Prelude.{◌<◌, ◌≤◌, ◌^◌, unsigned_abs};
    ghost use Rattle.exact_ratio.specs.Values.{Scaled};

    ghost Value = { Scaled };

    ghost view = { λ a. record { units = a.units; places = a.places } };

    ghost invariant = { λ a. (unsigned_abs a.units < 10 ^ 18) × (a.places ≤ 15) };

    ghost inverse = { λ s. record { units = s.units; places = s.places } };
}

/// Why a text is no decimal.
#[derive(Clone, Copy, Debug, PartialEq, Eq)]
pub enum DecimalFault {
    /// No byte stands, or none after the sign.
    Empty,
    /// The first place at which the form is left, counted from 0; the text's length where it ends too early.
    NotADigit(usize),
    /// The form is met, with more than 18 digits, or with more than 15 after the point.
    TooLong,
}
