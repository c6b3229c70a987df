//! What the names of a template stand for in one request.
ghost use Rattle.std.specs.Prelude.{◌≡◌};
ghost use Rattle.window_request.specs.Requests.{value_of, dimension_in};

use crate::field::TemplateField;

/// The value that a dimension has.
#[derive(Clone, Copy)]
pub struct DimensionValue<'a> {
    pub name: &'a [u8],
    pub value: &'a [u8],
}

/// The texts that the names of a template stand for, before their bytes are escaped.
#[derive(Clone, Copy)]
pub struct Values<'a> {
    pub layer: &'a [u8],
    pub style: &'a [u8],
    pub grid: &'a [u8],
    pub matrix: &'a [u8],
    pub min_x: &'a [u8],
    pub min_y: &'a [u8],
    pub max_x: &'a [u8],
    pub max_y: &'a [u8],
    pub width: &'a [u8],
    pub height: &'a [u8],
    pub number: &'a [u8],
    pub dimensions: &'a [DimensionValue<'a>],
}

/// The text that a name stands for.
pub fn value_of<'a>(values: &Values<'a>, field: TemplateField) -> &'a [u8]
    ensures { result.now ≡ value_of values.now field }
{
    match field {
        TemplateField::Layer => values.layer,
        TemplateField::Style => values.style,
        TemplateField::Grid => values.grid,
        TemplateField::Matrix => values.matrix,
        TemplateField::MinX => values.min_x,
        TemplateField::MinY => values.min_y,
        TemplateField::MaxX => values.max_x,
        TemplateField::MaxY => values.max_y,
        TemplateField::Width => values.width,
        TemplateField::Height => values.height,
        TemplateField::Number => values.number,
    }
}

/// The value of the first dimension of that name; empty where there is none.
pub fn dimension_in<'a>(dimensions: &[DimensionValue<'a>], name: &[u8]) -> &'a [u8]
    ensures { result.now ≡ dimension_in dimensions.now name.now }
{
    for dimension in dimensions {
        if dimension.name == name {
            return dimension.value;
        }
    }
    &[]
}
