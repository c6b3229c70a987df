//! The types of what a composition comes to.
ghost use Rattle.std.specs.Prelude.{◌≡◌};
ghost use Rattle.layer_recipes.specs.declared.composed.ComposeFault.TheVariants.{OutOfMemory};

use std::alloc::{AllocError, AllocFailed};

/// An encoded tile of several parts.
#[derive(Drop)]
pub struct Composed {
    /// The number of the render of each part, from the top down.
    pub numbers: Vec<u64>,
    /// The encoded tile.
    pub bytes: Vec<u8>,
}

/// Why there is no composite.
#[derive(Clone, Copy, Debug, PartialEq, Eq)]
pub enum ComposeFault {
    /// The source failed at the rendering of a part.
    SourceFault,
    /// No number is left for the render of a part.
    Spent,
    /// Memory ran out.
    OutOfMemory,
}

impl From<AllocError> for ComposeFault {
    ghost from_gives = { λ _ e. e ≡ OutOfMemory };

    fn from(_e: AllocError) -> ComposeFault {
        ComposeFault::OutOfMemory
    }
}

impl<T: Drop> From<AllocFailed<T>> for ComposeFault {
    ghost from_gives = { λ _ e. e ≡ OutOfMemory };

    fn from(_e: AllocFailed<T>) -> ComposeFault {
        ComposeFault::OutOfMemory
    }
}
