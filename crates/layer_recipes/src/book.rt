//! The types of recipes under names, and of why a text gives none.

use crate::recipe::Recipe;
use catalog::Named;
use exact_ratio::Words;

/// A recipe under its name.
#[derive(Drop)]
pub struct NamedRecipe {
    /// 1 to 64 letters, digits, `_`, `-`, `.` and `:`.
    pub name: Words,
    pub recipe: Recipe,
}

impl Named for NamedRecipe {
    ghost name = { λ r. r.name };

    fn name(&self) -> &[u8] {
        self.name.bytes()
    }
}

/// The recipes of a server, each under a name of its own, in the order of their text.
#[derive(Drop)]
pub struct RecipeBook {
    pub recipes: Vec<NamedRecipe>,
}
