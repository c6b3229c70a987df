//! The reading of a whole recipe.
ghost use Rattle.std.specs.Prelude.{◌≡◌, IfOk};
ghost use Rattle.catalog.specs.Valid.{IsValid};
ghost use Rattle.layer_recipes.specs.OfCatalogue.{IsRecipeOf};
ghost use Rattle.layer_recipes.specs.Outcome.{Gives};
ghost use Rattle.layer_recipes.specs.Recipes.{recipe_in, recipe_of};
ghost use Rattle.serde_json.specs.View.{view};

use crate::fault::RecipeFault;
use crate::member::{required_grid, required_parts};
use crate::part::each_part;
use crate::recipe::Recipe;
use catalog::Catalogue;
use json_forms::object_in;
use serde_json::Value;
use std::alloc::Global;

// What a member gives, or else its fault: `?` less its conversion of the error, which each member's proof would pay for.
macro_rules! member {
    ($member:expr) => {
        match $member {
            Ok(given) => given,
            Err(fault) => return Err(fault),
        }
    };
}

/// The recipe of an object's members.
#[tactic(auto, unfolding(crate::specs::Recipes::recipe_in))]
pub fn recipe_in(
    alloc: Global,
    catalogue: &Catalogue,
    object: &Value,
) -> Result<Recipe, RecipeFault>
    requires { IsValid catalogue.now }
    ensures gives { Gives (λ recipe. (recipe.grid, recipe.parts.items)) result (recipe_in catalogue.now (view object.now)) }
    ensures of { IfOk result (IsRecipeOf catalogue.now) }
{
    let grid = member!(required_grid(catalogue, object));
    let objects = member!(required_parts(object));
    let parts = member!(each_part(alloc, catalogue, grid, objects));
    Ok(Recipe { grid, parts })
}

impl Recipe {
    /// The recipe of a text, which is one JSON object (RFC 8259), or its first fault in the order of the members: `grid`, `parts`,
    /// and of each part from the top down `layer`, `style`, `dimensions` and `key`.
    ///
    /// `NotJson` where the text isn't one object; `Missing` where a member is absent that has to be there, or a dimension has neither
    /// a value nor a default; `Limit` where there is no part, or there are more than 8; `Bad` where a member has another form, names
    /// what isn't there, or names a layer without the grid. The number of a fault is its part's. `OutOfMemory` where memory runs out.
    #[tactic(auto, unfolding(crate::specs::Recipes::recipe_of))]
    pub fn read(alloc: Global, catalogue: &Catalogue, text: &[u8]) -> Result<Recipe, RecipeFault>
        requires { IsValid catalogue.now }
        ensures gives { Gives (λ recipe. (recipe.grid, recipe.parts.items)) result (recipe_of catalogue.now text.now) }
        ensures of { IfOk result (IsRecipeOf catalogue.now) }
    {
        match object_in(alloc, text) {
            Ok(Some(object)) => recipe_in(alloc, catalogue, &object),
            Ok(None) => Err(RecipeFault::NotJson),
            Err(_) => Err(RecipeFault::OutOfMemory),
        }
    }
}
