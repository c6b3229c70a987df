//! Truncations: which tiles a cover is for, the list of the cuts in force, and what that list still answers for.
//!
//! Promises: a cover covers a tile exactly by the geometry of its box, and hits a block exactly where it covers a tile of
//! it; a list is purged and its floor rises exactly by the rules of `specs/Purge.antt`, so that it answers for each cut that
//! it ever listed; the last covering cut is the greatest one. `laws` has what holds of all covers and books.
//! Stands on matrix_geometry and slab.
#![tactic(auto)]

mod block;
mod book;
mod containing;
mod cover;
mod covering;
mod going;
mod index;
mod indexed;
mod laws;
mod list;
mod lists;
mod looking;
mod purge;
mod settling;
mod slots;

pub use block::Block;
pub use book::{Book, Cut, FrontedBook};
pub use containing::contains;
pub use cover::Cover;
pub use covering::{covers, hits};
pub use laws::{laws_of_books, laws_of_containment, laws_of_fronted_books, laws_of_purges};
pub use list::CutList;
