//! How often and how lately each kept metatile was used, which one goes first, and whose uses are to be saved.
//!
//! Promises: the victim of a scope is its least metatile, by its last use and its key, or by its uses first where the least
//! often used goes; none exactly where the scope holds nothing. What changes or asks one metatile takes a time that goes by
//! the logarithm of how many are held; a victim of all layers takes one look at each layer besides.
//! Stands on metatile_plan, matrix_geometry and catalog.
#![tactic(auto)]

mod held;
mod laws;
mod layer;
mod layers;
mod leading;
mod order;
mod tournament;
mod uses;

pub use laws::laws_of_victims;
pub use uses::{Use, Uses};
