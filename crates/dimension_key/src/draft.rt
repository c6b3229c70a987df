//! A theme whose values are being read, and why a value is refused.
use matrix_geometry::Theme;

/// A theme whose values are being read.
#[derive(Clone, Copy, PartialEq, Eq)]
pub struct ThemeDraft {
    /// The theme with the values so far, 0 at the places after them.
    pub theme: Theme,
    /// How many values were read.
    pub count: u32,
}

/// Why a value of a dimension is refused.
#[derive(Clone, Copy, Debug, PartialEq, Eq)]
pub enum DimFault {
    /// There is no value, and the dimension has no default.
    Missing,
    /// The value isn't one of the dimension's.
    Invalid,
}
