//! The operator's catalogue as a JSON text.
//!
//! Promises: `read_catalogue` gives the catalogue of a text, with the SHA-256 of the text, or its first fault in the order
//! of the catalogue's tables (`specs/`); a catalogue that was read is valid.
//! Stands on json_forms, catalog, matrix_geometry, exact_ratio, serde_json and sha2.
#![tactic(auto)]

mod ages;
mod dimensions;
mod each;
mod grids;
mod json;
mod layers;
mod matrices;
mod measures;
mod member;
mod name;
mod outermost;
mod read;
mod row;
mod settings;
mod shape;
mod spacing;
mod span;
mod styles;

pub use read::read_catalogue;
