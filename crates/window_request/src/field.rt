//! The names that a template may have in braces, and what they stand for.
ghost use Rattle.std.specs.Prelude.{◌≡◌, MatchOption};
ghost use Rattle.window_request.specs.Pieces.{field_name};

/// What a name in braces stands for.
#[derive(Clone, Copy, Debug, PartialEq, Eq)]
pub enum TemplateField {
    /// The name of the layer.
    Layer,
    /// The name of the style.
    Style,
    /// The name of the grid.
    Grid,
    /// The name of the matrix.
    Matrix,
    /// The left edge of the window, in units of the grid.
    MinX,
    /// The lower edge of the window, in units of the grid.
    MinY,
    /// The right edge of the window, in units of the grid.
    MaxX,
    /// The upper edge of the window, in units of the grid.
    MaxY,
    /// The width of the window in pixels.
    Width,
    /// The height of the window in pixels.
    Height,
    /// The number of the picture's state.
    Number,
}

/// What a name stands for; `None` where it is none of the names.
pub fn field_named(name: &[u8]) -> Option<TemplateField>
    ensures { MatchOption result ((field : TemplateField) → ¬ (field_name field ≡ name.now)) (λ field. field_name field ≡ name.now) }
{
    match name {
        b"layer" => Some(TemplateField::Layer),
        b"style" => Some(TemplateField::Style),
        b"grid" => Some(TemplateField::Grid),
        b"matrix" => Some(TemplateField::Matrix),
        b"minx" => Some(TemplateField::MinX),
        b"miny" => Some(TemplateField::MinY),
        b"maxx" => Some(TemplateField::MaxX),
        b"maxy" => Some(TemplateField::MaxY),
        b"width" => Some(TemplateField::Width),
        b"height" => Some(TemplateField::Height),
        b"number" => Some(TemplateField::Number),
        _ => None,
    }
}
