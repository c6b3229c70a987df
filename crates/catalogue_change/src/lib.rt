//! What a change of the catalogue leaves alone: the metatiles that are under the new catalogue, by the same numbers, what they were under the old one.
//!
//! Promises: `stays` tells of a metatile whether its layer, its grid's matrix, its style and its values are under the same numbers what they were
//! (`specs/Alike.antt`). One that stays is a metatile of the new catalogue, of the same length, and each cover hits it as before (`laws_of_changes`).
//! Stands on catalog, truncation_list and the crates of their types.
#![tactic(auto)]

mod laws;
mod layers;
mod staying;
mod texts;

pub use laws::laws_of_changes;
pub use staying::stays;
