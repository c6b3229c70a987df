//! Members that are decimal numbers or pairs of numbers, as corners and sizes are.
ghost use Rattle.std.specs.Prelude.{◌≡◌, pos};
ghost use Rattle.config_text.specs.Member.{required, or, of_kind};
ghost use Rattle.config_text.specs.Reading.{Gives};
ghost use Rattle.config_text.specs.Shape.{two, wide, size, limited, decimal, above_zero, corner};
ghost use Rattle.json_forms.specs.Decimals.{decimal_text};
ghost use Rattle.serde_json.specs.Find.{get};
ghost use Rattle.serde_json.specs.View.{view};

use crate::member::{items, number};
use catalog::{CatalogueFault, Field};
use exact_ratio::Decimal;
use json_forms::{DecimalText, decimal_text};
use matrix_geometry::{Corner, Size};
use serde_json::Value;

/// A list of two values.
#[tactic(auto, unfolding(crate::specs::Shape::two))]
pub(crate) fn two(value: &Value, field: Field, at: u32) -> Result<(&Value, &Value), CatalogueFault>
    ensures { Gives (λ p. (view p.0.now, view p.1.now)) result (two field at (view value.now)) }
{
    let values = items(value, field, at)?;
    match values {
        [a, b] => Ok((a, b)),
        _ => Err(CatalogueFault::Bad(field, at)),
    }
}

fn wide(n: u64) -> u32
    ensures { result ≡ wide n }
{
    n.min(0xffff_ffff) as u32
}

/// Two whole numbers.
#[tactic(auto, unfolding(crate::specs::Shape::size))]
pub(crate) fn size(value: &Value, field: Field, at: u32) -> Result<Size, CatalogueFault>
    ensures { Gives (λ s. s) result (size field at (view value.now)) }
{
    let (w, h) = two(value, field, at)?;
    let w = number(w, field, at)?;
    let h = number(h, field, at)?;
    Ok(Size {
        w: wide(w),
        h: wide(h),
    })
}

/// Two whole numbers that have to be there.
pub(crate) fn required_size(
    object: &Value,
    name: &str,
    field: Field,
    at: u32,
) -> Result<Size, CatalogueFault>
    ensures { Gives (λ s. s) result (required size field at (get name.now (view object.now))) }
{
    match object.get(name) {
        None => Err(CatalogueFault::Missing(field, at)),
        Some(value) => size(value, field, at),
    }
}

/// The number of a decimal text that isn't too long.
fn short_decimal(text: DecimalText, field: Field, at: u32) -> Result<Decimal, CatalogueFault>
    ensures { Gives (λ x. x) result (limited text field at) }
{
    match text {
        DecimalText::Number(decimal) => Ok(decimal),
        DecimalText::TooLong => Err(CatalogueFault::Limit(field, at)),
    }
}

/// A text that has the form of a decimal number.
fn decimal_form(value: &Value, field: Field, at: u32) -> Result<DecimalText, CatalogueFault>
    ensures { Gives (λ t. t) result (of_kind (decimal_text (view value.now)) field at) }
{
    match decimal_text(value) {
        None => Err(CatalogueFault::Bad(field, at)),
        Some(text) => Ok(text),
    }
}

/// A decimal number.
#[tactic(auto, unfolding(crate::specs::Shape::decimal))]
fn decimal(value: &Value, field: Field, at: u32) -> Result<Decimal, CatalogueFault>
    ensures { Gives (λ x. x) result (decimal field at (view value.now)) }
{
    let text = decimal_form(value, field, at)?;
    short_decimal(text, field, at)
}

/// A decimal number that has to be there.
pub(crate) fn required_decimal(
    object: &Value,
    name: &str,
    field: Field,
    at: u32,
) -> Result<Decimal, CatalogueFault>
    ensures { Gives (λ x. x) result (required decimal field at (get name.now (view object.now))) }
{
    match object.get(name) {
        None => Err(CatalogueFault::Missing(field, at)),
        Some(value) => decimal(value, field, at),
    }
}

/// A decimal number above 0.
#[tactic(auto, unfolding(crate::specs::Shape::above_zero))]
fn above_zero(value: &Value, field: Field, at: u32) -> Result<Decimal, CatalogueFault>
    ensures { Gives (λ x. x) result (above_zero field at (view value.now)) }
{
    let decimal = decimal(value, field, at)?;
    if 0 < decimal.units {
        Ok(decimal)
    } else {
        Err(CatalogueFault::Bad(field, at))
    }
}

/// A decimal number above 0, or the default where the member is absent.
pub(crate) fn above_zero_or(
    object: &Value,
    name: &str,
    field: Field,
    at: u32,
    default: Decimal,
) -> Result<Decimal, CatalogueFault>
    ensures { Gives (λ x. x) result (or default above_zero field at (get name.now (view object.now))) }
{
    match object.get(name) {
        None => Ok(default),
        Some(value) => above_zero(value, field, at),
    }
}

/// Two decimal numbers, x and y.
#[tactic(auto, unfolding(crate::specs::Shape::corner))]
fn corner(value: &Value, field: Field, at: u32) -> Result<Corner, CatalogueFault>
    ensures { Gives (λ c. c) result (corner field at (view value.now)) }
{
    let (left, top) = two(value, field, at)?;
    let left = decimal_form(left, field, at)?;
    let top = decimal_form(top, field, at)?;
    let x = short_decimal(left, field, at)?;
    let y = short_decimal(top, field, at)?;
    Ok(Corner { x, y })
}

/// Two decimal numbers that have to be there.
pub(crate) fn required_corner(
    object: &Value,
    name: &str,
    field: Field,
    at: u32,
) -> Result<Corner, CatalogueFault>
    ensures { Gives (λ c. c) result (required corner field at (get name.now (view object.now))) }
{
    match object.get(name) {
        None => Err(CatalogueFault::Missing(field, at)),
        Some(value) => corner(value, field, at),
    }
}

/// Two decimal numbers, or the default where the member is absent.
pub(crate) fn corner_or(
    object: &Value,
    name: &str,
    field: Field,
    at: u32,
    default: Corner,
) -> Result<Corner, CatalogueFault>
    ensures { Gives (λ c. c) result (or default corner field at (get name.now (view object.now))) }
{
    match object.get(name) {
        None => Ok(default),
        Some(value) => corner(value, field, at),
    }
}
