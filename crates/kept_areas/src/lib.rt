//! The keys of the kept metatiles, each with a number, found by area.
//!
//! Promises: what is put of a metatile is its number until it is put again or leaves (`specs/Areas.antt`); a search for a
//! metatile that a cover hits finds one exactly where there is one; the least number is the least of all. What puts a key or
//! takes one out asks for no memory.
//! The keys lie in chunks of at most 512, each with its bounds, so that a search goes only through the chunks that the cover can
//! hit. Keys near each other are meant to stand in one chunk: that order tells where to look first, and nothing rests on it.
//! Stands on metatile_locks, truncation_list, metatile_plan, catalog and matrix_geometry.
#![tactic(auto)]

mod area;
mod areas;
mod bounds;
mod chunks;
mod looking;
mod order;
mod side;
mod spot;
mod table;
mod walk;

pub use areas::KeptAreas;
pub use spot::{Hit, KeptSpot};
