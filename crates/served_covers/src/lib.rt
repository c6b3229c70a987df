//! Which covers are of a catalogue.
//!
//! Promises: `is_cover_of` says exactly whether a cover is (`specs/OfCatalogue.antt`), which the readers of covers promise and
//! the cabinet asks for.
//! Stands on truncation_list, catalog and matrix_geometry.
#![tactic(auto)]

mod of_catalogue;

pub use of_catalogue::is_cover_of;
