//! Why a text is no recipe, and the member at fault.
ghost use Rattle.std.specs.Prelude.{◌≡◌};
ghost use Rattle.layer_recipes.specs.declared.fault.RecipeFault.TheVariants.{OutOfMemory};

use std::alloc::{AllocError, AllocFailed};

/// A member of a recipe's text.
#[derive(Clone, Copy, Debug, PartialEq, Eq)]
pub enum RecipeField {
    /// `grid`
    Grid,
    /// `parts`
    Parts,
    /// `layer` of a part
    Layer,
    /// `style` of a part
    Style,
    /// `dimensions` of a part
    Dimensions,
    /// `key` of a part
    Key,
}

/// Why a text is no recipe: a member, with the place of its part in the list of parts, 0 for the outermost object.
#[derive(Clone, Copy, Debug, PartialEq, Eq)]
pub enum RecipeFault {
    /// The text isn't one JSON object.
    NotJson,
    /// The member has to be there, or a dimension has neither a value nor a default.
    Missing(RecipeField, u32),
    /// The member has another form, or names what isn't there.
    Bad(RecipeField, u32),
    /// There is no part, or there are more than 8.
    Limit(RecipeField, u32),
    /// Memory ran out.
    OutOfMemory,
}

impl From<AllocError> for RecipeFault {
    ghost from_gives = { λ _ e. e ≡ OutOfMemory };

    fn from(_e: AllocError) -> RecipeFault {
        RecipeFault::OutOfMemory
    }
}

impl<T: Drop> From<AllocFailed<T>> for RecipeFault {
    ghost from_gives = { λ _ e. e ≡ OutOfMemory };

    fn from(_e: AllocFailed<T>) -> RecipeFault {
        RecipeFault::OutOfMemory
    }
}
