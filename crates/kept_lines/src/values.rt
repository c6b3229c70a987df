//! The values of a metatile, each with the name of its dimension.
ghost use Rattle.std.specs.List.{join_with_byte};
ghost use Rattle.std.specs.Prelude.{◌≡◌, ◌++◌, OnOk};
ghost use Rattle.kept_lines.specs.Lines.{comma_before, value_text, value_texts, values_column};

use catalog::Dimension;
use std::alloc::AllocError;

/// Adds the name of a dimension and its value.
fn add_value(text: &mut Vec<u8>, dimension: &Dimension, number: u32) -> Result<(), AllocError>
    ensures { OnOk result (text.new.items ≡ text.old.items ++ value_text dimension.now number) }
{
    text.extend_from_slice(dimension.id.bytes())?;
    text.extend_from_slice(b"=")?;
    if let Some(value) = dimension.values.get(number as usize) {
        text.extend_from_slice(value.bytes())?;
    }
    Ok(())
}

/// Adds a value of this place, with a comma before each but the first.
fn add_next_value(
    text: &mut Vec<u8>,
    place: usize,
    dimension: &Dimension,
    number: u32,
) -> Result<(), AllocError>
    ensures { OnOk result (text.new.items ≡ text.old.items ++ comma_before place ++ value_text dimension.now number) }
{
    if place > 0 {
        text.extend_from_slice(b",")?;
    }
    add_value(text, dimension, number)
}

/// Adds the values of dimensions, each at its number.
fn add_values(
    text: &mut Vec<u8>,
    dimensions: &[Dimension],
    numbers: &[u32],
) -> Result<(), AllocError>
    ensures { OnOk result (text.new.items ≡ text.old.items ++ join_with_byte 44 (value_texts dimensions.now numbers.now)) }
{
    for (place, dimension) in dimensions.iter().enumerate() {
        let Some(number) = numbers.get(place) else {
            return Ok(());
        };
        add_next_value(text, place, dimension, *number)?;
    }
    Ok(())
}

/// Adds the column of values: those of dimensions, each at its number, or a dash where there is no dimension.
pub(crate) fn add_values_column(
    text: &mut Vec<u8>,
    dimensions: &[Dimension],
    numbers: &[u32],
) -> Result<(), AllocError>
    ensures { OnOk result (text.new.items ≡ text.old.items ++ values_column dimensions.now numbers.now) }
{
    match dimensions {
        [] => text.extend_from_slice(b" -"),
        _ => {
            text.extend_from_slice(b" ")?;
            add_values(text, dimensions, numbers)
        }
    }
}
