//! Why a text gives no recipes.
ghost use Rattle.std.specs.Prelude.{◌≡◌};
ghost use Rattle.layer_recipes.specs.declared.book_fault.BookFault.TheVariants.{OutOfMemory};

use crate::fault::RecipeFault;
use std::alloc::AllocFailed;

/// Why a text gives no recipes, with the place of a recipe in it, 0 for the first one.
#[derive(Clone, Copy, Debug, PartialEq, Eq)]
pub enum BookFault {
    /// The text isn't one JSON object.
    NotJson,
    /// There are more than 64 recipes.
    Limit,
    /// What the recipe at this place stands under is no name.
    Name(u32),
    /// The recipe at this place has this fault, which isn't want of memory.
    Recipe(u32, RecipeFault),
    /// Memory ran out.
    OutOfMemory,
}

impl<T: Drop> From<AllocFailed<T>> for BookFault {
    ghost from_gives = { λ _ e. e ≡ OutOfMemory };

    fn from(_e: AllocFailed<T>) -> BookFault {
        BookFault::OutOfMemory
    }
}
