//! What the member of each field stands in, and its name in the text.
ghost use Rattle.std.specs.Prelude.{◌≡◌};
ghost use Rattle.fault_paths.specs.Fields.{name_of, owner_of};

use catalog::Field;

/// What a member stands in.
#[derive(Clone, Copy, PartialEq, Eq)]
pub enum Owner {
    /// The outermost object.
    Outermost,
    /// An object of `grids`.
    Grid,
    /// An object of `matrices` of a grid.
    Matrix,
    /// An object of `layers`.
    Layer,
    /// An object of `styles` of a layer.
    Style,
    /// An object of `dimensions` of a layer.
    Dimension,
}

/// What the member of a field stands in.
pub(crate) fn owner_of(field: Field) -> Owner
    ensures { result ≡ owner_of field }
{
    match field {
        Field::Source
        | Field::KeptLimit
        | Field::CutLimit
        | Field::BlobBytes
        | Field::Quota
        | Field::Policy
        | Field::Grids
        | Field::Layers => Owner::Outermost,
        Field::GridId | Field::Meters | Field::Corner | Field::Matrices => Owner::Grid,
        Field::MatrixId
        | Field::MatrixCorner
        | Field::Span
        | Field::Scale
        | Field::Tile
        | Field::Size => Owner::Matrix,
        Field::LayerId
        | Field::LayerGrids
        | Field::Styles
        | Field::Dimensions
        | Field::Meta
        | Field::Gutter
        | Field::Cell
        | Field::LayerQuota
        | Field::Ages => Owner::Layer,
        Field::StyleId | Field::Breaks => Owner::Style,
        Field::DimensionId | Field::Values | Field::Default => Owner::Dimension,
    }
}

/// The name of the member of a field.
pub(crate) fn name_of(field: Field) -> &'static str
    ensures { result.now ≡ name_of field }
{
    match field {
        Field::Source => "source",
        Field::KeptLimit => "keptLimit",
        Field::CutLimit => "cutLimit",
        Field::BlobBytes => "blobBytes",
        Field::Quota | Field::LayerQuota => "quota",
        Field::Policy => "policy",
        Field::Grids | Field::LayerGrids => "grids",
        Field::Layers => "layers",
        Field::GridId | Field::MatrixId | Field::LayerId | Field::StyleId | Field::DimensionId =>
            "id",
        Field::Meters => "metersPerUnit",
        Field::Corner | Field::MatrixCorner => "corner",
        Field::Matrices => "matrices",
        Field::Span => "span",
        Field::Scale => "scale",
        Field::Tile => "tile",
        Field::Size => "size",
        Field::Styles => "styles",
        Field::Breaks => "breaks",
        Field::Dimensions => "dimensions",
        Field::Values => "values",
        Field::Default => "default",
        Field::Meta => "meta",
        Field::Gutter => "gutter",
        Field::Cell => "cell",
        Field::Ages => "ages",
    }
}
