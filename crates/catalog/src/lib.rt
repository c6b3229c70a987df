//! The operator's catalogue: grids of tile matrices, and layers with their styles and dimensions.
//!
//! Promises: `Catalogue::demo` is the built-in catalogue; a look-up finds what a number or a theme names, and the one place
//! that has a name; `Layer::age_limit` is the limit of age at a zoom; `validate` gives the first fault in the order of the
//! catalogue's tables, and a catalogue without one `IsValid` (`specs/`).
//! Stands on matrix_geometry and exact_ratio.
#![tactic(auto)]

mod ages;
mod by_name;
mod catalogue;
mod copy;
mod demo;
mod fault;
mod first_fault;
mod grid;
mod layer;
mod look_up;
mod named;
mod names;
mod valid_ages;
mod valid_dimension;
mod valid_grid;
mod valid_layer;
mod valid_style;
mod validate;

pub use catalogue::{Catalogue, Policy, Scope};
pub use fault::{CatalogueFault, Field};
pub use first_fault::{name_test, names_test, unless};
pub use grid::Grid;
pub use layer::{Age, Break, Dimension, Layer, Style};
pub use named::{Named, is_taken, place_named};
pub use names::{
    are_distinct, are_names, are_short, is_name, is_parameter, is_same, is_short, within,
};
pub use valid_ages::zooms_rise;
pub use valid_dimension::dimension_name_test;
pub use valid_layer::{are_factors, are_small, is_among};
pub use valid_style::rise_from_zero;
