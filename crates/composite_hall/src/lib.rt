//! Composite layers over a hall: the parts of a recipe are got one after the other, and laid over each other.
//!
//! Promises: `compose` gets the parts from the top down, each by the turns of one get, and the first fault ends it
//! (`specs/OverHall.antt`). The text that it gives is the composite of the parts' texts; where the cabinet and the source are modelled, it is
//! the composite of the pictures of the parts' numbers. Each number is above every truncation that covers its part's tile and that the
//! pass had seen at the call. Each blob that the turns hand in is cut out of an image that the source gave for its ticket.
//! Stands on composite_layers, layer_recipes, cache_hall, cache_access, cabinet_chest, turnstile, cabinet, source_render, cache_core,
//! truncation_list, catalog, matrix_geometry and base.
#![tactic(auto)]

mod over_hall;

pub use over_hall::compose;
