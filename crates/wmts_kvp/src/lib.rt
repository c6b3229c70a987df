//! Queries by key-value pairs (OGC 07-057r7, sections 7.1 and 7.2).
//!
//! Promises: `read_query` is the reading of the query's decoded pairs by the table of parameters (`specs/Reading.antt`): one
//! tile of the catalogue, the capabilities, or the refusal of the first row that fails.
//! Stands on dimension_key, exception_report, catalog, matrix_geometry, exact_ratio and form_urlencoded.
#![tactic(auto)]

mod end;
mod number;
mod pairs;
mod query;
mod rows;
mod theme;

pub use number::{below, is_number, short_number};
pub use query::{Query, read_pairs, read_query};
