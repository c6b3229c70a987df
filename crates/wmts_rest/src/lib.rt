//! Paths of RESTful tile requests (OGC 07-057r7, section 10).
//!
//! Promises: `RestTable::read_path` is the reading of the pairs that a path's segments spell (`specs/Paths.antt`), the
//! capabilities for their one path, and nothing for any path that is neither. `read_picture` is the same reading of the segments of a path by which
//! a tile is asked for as a picture.
//! Stands on wmts_kvp, catalog, exact_ratio, matchit and percent_encoding.
#![tactic(auto)]

mod pictures;
mod route;
mod segments;
mod spelling;
mod table;

pub use pictures::read_picture;
pub use table::RestTable;
