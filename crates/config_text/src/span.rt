//! The span of a matrix, as digits or as a fraction of two runs of digits.
ghost use Rattle.std.specs.Char.{is_ascii_digit};
ghost use Rattle.std.specs.List.{list_all, list_any};
ghost use Rattle.std.specs.Prelude.{◌≡◌, ◌<◌, ◌≤◌, ◌^◌, ◌+◌, ◌&&◌, ◌==◌, true, not, length, nat_le, pos};
ghost use Rattle.std.specs.Str.Parse.{digits_value};
ghost use Rattle.config_text.specs.Member.{if_any};
ghost use Rattle.config_text.specs.Reading.{Gives};
ghost use Rattle.config_text.specs.Shape.{is_nonzero, slash_at, numerator, denominator, span_of, span};
ghost use Rattle.exact_ratio.specs.Lowest.{lowest_of};
ghost use Rattle.serde_json.specs.Find.{get};
ghost use Rattle.serde_json.specs.View.{view};

use crate::member::text;
use catalog::{CatalogueFault, Field};
use exact_ratio::Ratio;
use serde_json::Value;

fn are_digits(text: &[u8]) -> bool
    ensures { result ≡ list_all is_ascii_digit text.now }
{
    text.iter().all(|b| b.is_ascii_digit())
}

fn has_nonzero(text: &[u8]) -> bool
    ensures { result ≡ list_any (λ b. not (b == 48)) text.now }
{
    text.iter().any(|b| *b != b'0')
}

/// Whether a text is digits, not all of them 0.
fn is_nonzero(text: &[u8]) -> bool
    ensures { result ≡ is_nonzero text.now }
{
    are_digits(text) && has_nonzero(text)
}

/// The place of the first `/`, or the text's length.
fn slash_at(text: &[u8]) -> usize
    ensures value { result ≡ slash_at text.now }
    ensures within { result ≤ length text.now }
{
    for (i, b) in text.iter().enumerate() {
        if *b == b'/' {
            return i;
        }
    }
    text.len()
}

fn numerator(text: &[u8]) -> &[u8]
    ensures { result.now ≡ numerator text.now }
{
    &text[..slash_at(text)]
}

fn denominator(text: &[u8]) -> &[u8]
    ensures { result.now ≡ denominator text.now }
{
    let slash = slash_at(text);
    if slash == text.len() {
        return b"1";
    }
    text.split_at(slash + 1).1
}

/// The number that at most 24 digits write.
fn number_of(digits: &[u8]) -> u128
    requires digits { list_all is_ascii_digit digits.now ≡ true }
    requires few { length digits.now ≤ 24 }
    ensures value { result ≡ digits_value 10 digits.now }
    ensures small { result < 10 ^ 24 }
{
    let mut all = 0;
    for digit in digits {
        all = 10 * all + u128::from(*digit - b'0');
    }
    all
}

fn signed(number: u128) -> i128
    requires { number < 10 ^ 24 }
    ensures { result ≡ pos number }
{
    number as i128
}

/// The fraction of two numbers of at most 24 digits, in lowest terms.
fn ratio_of(n: &[u8], d: &[u8]) -> Option<Ratio>
    requires n { is_nonzero n.now ≡ true }
    requires d { is_nonzero d.now ≡ true }
    requires n_few { length n.now ≤ 24 }
    requires d_few { length d.now ≤ 24 }
    ensures { result ≡ lowest_of (pos (digits_value 10 n.now)) (pos (digits_value 10 d.now)) }
{
    let n = signed(number_of(n));
    let d = signed(number_of(d));
    Ratio::new(n, d)
}

#[tactic(auto, unfolding(crate::specs::Shape::span_of))]
fn span_of(n: &[u8], d: &[u8], field: Field, at: u32) -> Result<Ratio, CatalogueFault>
    ensures { Gives (λ r. r) result (span_of n.now d.now field at) }
{
    if !is_nonzero(n) || !is_nonzero(d) {
        return Err(CatalogueFault::Bad(field, at));
    }
    if n.len() > 24 || d.len() > 24 {
        return Err(CatalogueFault::Limit(field, at));
    }
    match ratio_of(n, d) {
        None => Err(CatalogueFault::Bad(field, at)),
        Some(ratio) => Ok(ratio),
    }
}

/// A text `n` or `n/d`.
#[tactic(auto, unfolding(crate::specs::Shape::span))]
fn span(value: &Value, field: Field, at: u32) -> Result<Ratio, CatalogueFault>
    ensures { Gives (λ r. r) result (span field at (view value.now)) }
{
    let text = text(value, field, at)?;
    span_of(numerator(text), denominator(text), field, at)
}

/// A text `n` or `n/d` that may be absent.
pub(crate) fn span_if_any(
    object: &Value,
    name: &str,
    field: Field,
    at: u32,
) -> Result<Option<Ratio>, CatalogueFault>
    ensures { Gives (λ r. r) result (if_any span field at (get name.now (view object.now))) }
{
    match object.get(name) {
        None => Ok(None),
        Some(value) => Ok(Some(span(value, field, at)?)),
    }
}
