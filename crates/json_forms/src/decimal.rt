//! Decimal numbers that are written as JSON strings. Too many digits are told apart from another form.
ghost use Rattle.std.specs.Prelude.{◌≡◌};
ghost use Rattle.json_forms.specs.Decimals.{text_of, decimal_text};
ghost use Rattle.serde_json.specs.View.{view};

use exact_ratio::{Decimal, DecimalFault};
use serde_json::Value;

/// A text of the form of a decimal number.
#[derive(Clone, Copy, PartialEq, Eq)]
pub enum DecimalText {
    /// The number.
    Number(Decimal),
    /// More digits than a number is read with.
    TooLong,
}

fn text_of(reading: Result<Decimal, DecimalFault>) -> Option<DecimalText>
    ensures { result ≡ text_of reading }
{
    match reading {
        Ok(decimal) => Some(DecimalText::Number(decimal)),
        Err(DecimalFault::TooLong) => Some(DecimalText::TooLong),
        Err(DecimalFault::Empty) => None,
        Err(DecimalFault::NotADigit(_)) => None,
    }
}

/// The decimal number that a value is as a text; `None` where it isn't a text of that form.
pub fn decimal_text(value: &Value) -> Option<DecimalText>
    ensures { result ≡ decimal_text (view value.now) }
{
    match value.as_str() {
        None => None,
        Some(text) => text_of(Decimal::read(text.as_bytes())),
    }
}
