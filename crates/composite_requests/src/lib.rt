//! Requests for composites: where a message leads under `/composites/`, by the recipes of a server.
//!
//! Promises: `read_composite_request` reads exactly the paths below `/composites/`, if there is a recipe, and leaves all others to the table
//! of paths (`specs/Routes.antt`); a composite that is asked for is of a recipe that is there, at a place of its grid.
//! Stands on layer_recipes, on wmts_rest and wmts_kvp for how segments and numbers are spelt, and on tile_requests for messages and paths.
#![tactic(auto)]

mod place;
mod refusal;
mod request;
mod routes;
mod segments;

pub use request::CompositeRequest;
pub use routes::read_composite_request;
