//! Recipes: tiles of several layers, laid over each other.
//!
//! Promises: `Recipe::read` gives the recipe of a JSON text or its first fault in the order of its members
//! (`specs/Recipes.antt`), `RecipeBook::read` so the recipes that stand under names (`specs/Books.antt`), and a recipe that was read is of the catalogue (`specs/OfCatalogue.antt`). An `Overlay` gives the text
//! of a composite of the parts that were laid on it, from the top down (`specs/Composite.antt`); where each part's text is that of a
//! picture, it is the composite of the pictures.
//! Stands on json_forms, dimension_key, raster_field, metatile_plan, catalog, matrix_geometry, exact_ratio, serde_json and itoa.
#![tactic(auto)]

mod book;
mod book_fault;
mod book_reading;
mod composed;
mod dimensions;
mod fault;
mod header;
mod laws;
mod member;
mod names;
mod overlay;
mod part;
mod pixels;
mod place;
mod reading;
mod recipe;

pub use book::{NamedRecipe, RecipeBook};
pub use book_fault::BookFault;
pub use composed::{ComposeFault, Composed};
pub use fault::{RecipeFault, RecipeField};
pub use laws::laws_of_composites;
pub use overlay::Overlay;
pub use place::TilePlace;
pub use recipe::{Part, Recipe};
