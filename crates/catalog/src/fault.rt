//! Why a text is no catalogue, or a catalogue isn't valid: the member, and where its object stands.
ghost use Rattle.std.specs.Prelude.{◌≡◌};
ghost use Rattle.catalog.specs.declared.fault.CatalogueFault.TheVariants.{OutOfMemory};

use std::alloc::{AllocError, AllocFailed};

/// A member of the catalogue's text. The text of a fault names it as it is spelt here.
#[derive(Clone, Copy, Debug, PartialEq, Eq)]
pub enum Field {
    /// `source`
    Source,
    /// `keptLimit`
    KeptLimit,
    /// `cutLimit`
    CutLimit,
    /// `blobBytes`
    BlobBytes,
    /// `quota` of the catalogue
    Quota,
    /// `policy`
    Policy,
    /// `grids` of the catalogue
    Grids,
    /// `layers`
    Layers,
    /// `id` of a grid
    GridId,
    /// `metersPerUnit` of a grid
    Meters,
    /// `corner` of a grid
    Corner,
    /// `matrices` of a grid
    Matrices,
    /// `id` of a matrix
    MatrixId,
    /// `corner` of a matrix
    MatrixCorner,
    /// `span` of a matrix
    Span,
    /// `scale` of a matrix
    Scale,
    /// `tile` of a matrix
    Tile,
    /// `size` of a matrix
    Size,
    /// `id` of a layer
    LayerId,
    /// `grids` of a layer
    LayerGrids,
    /// `styles` of a layer
    Styles,
    /// `id` of a style
    StyleId,
    /// `breaks` of a style
    Breaks,
    /// `dimensions` of a layer
    Dimensions,
    /// `id` of a dimension
    DimensionId,
    /// `values` of a dimension
    Values,
    /// `default` of a dimension
    Default,
    /// `meta` of a layer
    Meta,
    /// `gutter` of a layer
    Gutter,
    /// `cell` of a layer
    Cell,
    /// `quota` of a layer
    LayerQuota,
    /// `ages` of a layer
    Ages,
}

/// Why a text is no catalogue, or why a catalogue isn't valid: a member, with the place of its object in its list, 0 for
/// the outermost object.
#[derive(Clone, Copy, Debug, PartialEq, Eq)]
pub enum CatalogueFault {
    /// The text isn't one JSON object.
    NotJson,
    /// A member that has to be there is absent.
    Missing(Field, u32),
    /// A member has another form or type, or names what isn't there.
    Bad(Field, u32),
    /// A name stands a second time.
    Duplicate(Field, u32),
    /// The form is met, and a number, a list or a text is outside its limit.
    Limit(Field, u32),
    /// Memory ran out.
    OutOfMemory,
}

impl From<AllocError> for CatalogueFault {
    ghost from_gives = { λ _ e. e ≡ OutOfMemory };

    fn from(_e: AllocError) -> CatalogueFault {
        CatalogueFault::OutOfMemory
    }
}

impl<T: Drop> From<AllocFailed<T>> for CatalogueFault {
    ghost from_gives = { λ _ e. e ≡ OutOfMemory };

    fn from(_e: AllocFailed<T>) -> CatalogueFault {
        CatalogueFault::OutOfMemory
    }
}
