//! Composite layers: the parts of a recipe are got one after the other, and laid over each other.
//!
//! Promises: `compose` gets the parts from the top down over any access, each by the turns of one get, and the first fault ends it
//! (`specs/OverAccess.antt`). The text that it gives is the composite of the parts' texts; if the cache is sound and the source the
//! catalogue's, it is the composite of the pictures of the parts' numbers. Each blob that the turns hand in is cut out of an image that the
//! source gave for its ticket. `compose_plain` composes in a cabinet in which no render runs: each part is asked for by the events of a GET,
//! and each is fresh at its own ask (`specs/Parts.antt`, `specs/Composes.antt`).
//! Stands on layer_recipes, tile_service, tile_requests, cache_access, cabinet_chest, turnstile, cache_core, cabinet, source_render,
//! truncation_list, catalog, matrix_geometry, raster_field and base.
#![tactic(auto)]

mod over_access;
mod part;
mod plain;

pub use over_access::compose;
pub use plain::compose_plain;
