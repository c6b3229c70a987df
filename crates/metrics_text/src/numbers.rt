//! The numbers of samples as texts.
ghost use Rattle.std.specs.Prelude.{◌≡◌, ◌++◌, ◌∷◌, ◌+◌, ◌%◌, [], OnOk, codes, decimal};
ghost use Rattle.metrics_text.specs.Exposition.{last_digits, number_text};

use crate::family::Number;
use itoa::Buffer;
use std::alloc::AllocError;

/// Appends a number in decimal digits.
fn push_decimal(text: &mut Vec<u8>, number: u64) -> Result<(), AllocError>
    ensures { OnOk result (text.new.items ≡ text.old.items ++ decimal number) }
{
    let mut buffer = Buffer::new();
    text.extend_from_slice(buffer.format(number).as_bytes())
}

/// Appends the last decimal digit of a number.
fn push_last_digit(text: &mut Vec<u8>, number: u64) -> Result<(), AllocError>
    ensures { OnOk result (text.new.items ≡ text.old.items ++ (48 + number % 10) ∷ []) }
{
    text.extend_from_slice(&[b'0' + (number % 10) as u8])
}

/// Appends the last so many decimal digits of a number.
#[tactic(auto, unfolding(crate::specs::Exposition::last_digits))]
fn push_last_digits(text: &mut Vec<u8>, count: u8, number: u64) -> Result<(), AllocError>
    ensures { OnOk result (text.new.items ≡ text.old.items ++ last_digits count number) }
{
    if count == 0 {
        return Ok(());
    }
    push_last_digits(text, count - 1, number / 10)?;
    push_last_digit(text, number)?;
    Ok(())
}

/// Appends the number of a sample. `AllocError` where memory runs out.
pub(crate) fn push_number(text: &mut Vec<u8>, number: Number) -> Result<(), AllocError>
    ensures { OnOk result (text.new.items ≡ text.old.items ++ number_text number) }
{
    match number {
        Number::Whole(count) => push_decimal(text, count),
        Number::Micros(micros) => push_seconds(text, micros / 1_000_000, 6, micros),
        Number::Nanos(nanos) => push_seconds(text, nanos / 1_000_000_000, 9, nanos),
    }
}

/// Appends whole seconds, and so many decimal places behind them: the last digits of the parts of a second.
fn push_seconds(text: &mut Vec<u8>, seconds: u64, places: u8, parts: u64) -> Result<(), AllocError>
    ensures { OnOk result (text.new.items ≡ text.old.items ++ decimal seconds ++ codes "." ++ last_digits places parts) }
{
    push_decimal(text, seconds)?;
    text.extend_from_slice(b".")?;
    push_last_digits(text, places, parts)
}
