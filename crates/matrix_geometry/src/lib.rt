//! Tile matrices and the names of tiles: a theme, an address, a filter, and which tiles a box meets.
//!
//! Promises: the edges of a tile and the tiles of a box are those of the standard's geometry in exact fractions, and a
//! matrix that is made here is within the limits (`specs/`).
//! Stands on exact_ratio.
#![tactic(auto)]

mod address;
mod boxes;
mod filter;
mod geometry;
mod making;
mod matrix;
mod theme;

pub use address::Address;
pub use boxes::{Box9, Range, TileBox};
pub use making::{GridFault, coordinate};
pub use matrix::{Corner, Matrix, Size};
pub use theme::{Filter, Theme};
