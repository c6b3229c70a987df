//! The values of a metatile's dimensions.
ghost use Rattle.std.specs.Prelude.{◌≡◌, IfOk, map};
ghost use Rattle.http_source.specs.Asked.{named_value, theme_values, value_at};

use catalog::Dimension;
use std::alloc::{AllocError, Global};
use window_request::DimensionValue;

/// The value of this number; empty where the dimension has none.
fn value_at(dimension: &Dimension, number: u32) -> &[u8]
    ensures { result.now ≡ value_at dimension.now number }
{
    match dimension.values.get(number as usize) {
        Some(value) => value.bytes(),
        None => &[],
    }
}

/// A dimension with its value of this number.
fn named_value(dimension: &Dimension, number: u32) -> DimensionValue
    ensures { named_value result ≡ (dimension.now.id, value_at dimension.now number) }
{
    DimensionValue {
        name: dimension.id.bytes(),
        value: value_at(dimension, number),
    }
}

/// The values of dimensions that have these numbers, in the catalogue's order.
pub(crate) fn theme_values<'a>(
    alloc: Global,
    dimensions: &'a [Dimension],
    numbers: &[u32],
) -> Result<Vec<DimensionValue<'a>>, AllocError>
    ensures { IfOk result (λ values. map named_value values.items ≡ theme_values dimensions.now numbers.now) }
{
    let mut values = Vec::new(alloc);
    for place in 0..dimensions.len().min(numbers.len()) {
        values.push(named_value(&dimensions[place], numbers[place]))?;
    }
    Ok(values)
}
