//! The values of a layer's dimensions that a request names, read one after the other.
//!
//! Promises: `ThemeDraft::add` takes the number of the next dimension's value, its default where none is given, and
//! refuses exactly a value that is missing or isn't listed; a refused draft stays as it was (`specs/Draft.antt`).
//! Stands on catalog and matrix_geometry.
#![tactic(auto)]

mod draft;
mod theme_draft;

pub use draft::{DimFault, ThemeDraft};
